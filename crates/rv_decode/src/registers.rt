//! The names of the integer registers.

ghost use Rattle.std.specs.Prelude.{◌≡◌, ◌<◌, IfSome};
ghost use Rattle.rv_decode.specs.Registers.{is_spelling, name_of_register, number_of_register, register_of};

/// The name of a register in the RISC-V ELF psABI ("Integer Register Convention"), `s0` for x8.
#[tactic(auto, unfolding(crate::specs::Registers::name_of_register))]
pub fn register_name(r: u8) -> &'static str
    requires { r < 32 }
    ensures { result.now ≡ name_of_register r }
{
    match r {
        0 => "zero",
        1 => "ra",
        2 => "sp",
        3 => "gp",
        4 => "tp",
        5 => "t0",
        6 => "t1",
        7 => "t2",
        8 => "s0",
        9 => "s1",
        10 => "a0",
        11 => "a1",
        12 => "a2",
        13 => "a3",
        14 => "a4",
        15 => "a5",
        16 => "a6",
        17 => "a7",
        18 => "s2",
        19 => "s3",
        20 => "s4",
        21 => "s5",
        22 => "s6",
        23 => "s7",
        24 => "s8",
        25 => "s9",
        26 => "s10",
        27 => "s11",
        28 => "t3",
        29 => "t4",
        30 => "t5",
        31 => "t6",
        _ => unreachable!(),
    }
}

// The name of a register by its number.
#[tactic(auto, unfolding(crate::specs::Registers::number_of_register))]
fn register_number(r: u8) -> &'static str
    requires { r < 32 }
    ensures { result.now ≡ number_of_register r }
{
    match r {
        0 => "x0",
        1 => "x1",
        2 => "x2",
        3 => "x3",
        4 => "x4",
        5 => "x5",
        6 => "x6",
        7 => "x7",
        8 => "x8",
        9 => "x9",
        10 => "x10",
        11 => "x11",
        12 => "x12",
        13 => "x13",
        14 => "x14",
        15 => "x15",
        16 => "x16",
        17 => "x17",
        18 => "x18",
        19 => "x19",
        20 => "x20",
        21 => "x21",
        22 => "x22",
        23 => "x23",
        24 => "x24",
        25 => "x25",
        26 => "x26",
        27 => "x27",
        28 => "x28",
        29 => "x29",
        30 => "x30",
        31 => "x31",
        _ => unreachable!(),
    }
}

/// The register that `text` names by its psABI name, as `fp`, or as `x0` to `x31`; `None` exactly for
/// every other text.
#[tactic(auto, unfolding(crate::specs::Registers::register_of))]
pub fn read_register(text: &str) -> Option<u8>
    ensures register { result ≡ register_of text.now }
    ensures within { IfSome result (λ r. r < 32) }
{
    (0..32u8).find(|r| is_name(text, *r))
}

fn is_name(text: &str, r: u8) -> bool
    requires { r < 32 }
    ensures { result ≡ is_spelling text.now r }
{
    text == register_name(r) || text == register_number(r) || (r == 8 && text == "fp")
}
