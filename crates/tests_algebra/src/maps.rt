//! Small maps, with their words worked out by hand. Position 0 is x, position 1 is y, position 16 is the constant.

use map_modules::{
    Mat, affine_maps_compose, after_affine, apply, extend_call, identity, keeping_is_linear, keeps,
    maps_are_linear, matrices_on_positions, product, products_associate,
};
use word_rows::Row;

/// A word of a matrix, with its row and its column before it.
type Place = (usize, usize, u64);

const ADD_8: [Place; 4] = [(0, 0, 1), (0, 16, 8), (1, 1, 1), (16, 16, 1)];

const TRIPLE: [Place; 3] = [(0, 0, 3), (1, 1, 1), (16, 16, 1)];

const TRIPLE_THEN_ADD: [Place; 4] = [(0, 0, 3), (0, 16, 8), (1, 1, 1), (16, 16, 1)];

const ADD_THEN_TRIPLE: [Place; 4] = [(0, 0, 3), (0, 16, 24), (1, 1, 1), (16, 16, 1)];

/// Three times x, and then y := 2 * x + 1.
const TRIPLE_THEN_TAKE: [Place; 4] = [(0, 0, 3), (1, 0, 6), (1, 16, 1), (16, 16, 1)];

const CALLEE: [Place; 5] = [(0, 0, 2), (0, 16, 7), (1, 1, 9), (2, 0, 5), (16, 16, 4)];

const CALLED: [Place; 4] = [(0, 0, 2), (0, 16, 7), (1, 1, 4), (16, 16, 4)];

/// Matrices, and whether they keep x.
const KEPT: [(&[Place], bool); 5] = [
    (&[(0, 0, 1), (16, 16, 1)], true),
    (&[(0, 0, 4), (16, 16, 4)], true),
    (&[(0, 0, 4), (16, 16, 1)], false),
    (&[(0, 0, 1), (0, 1, 1), (16, 16, 1)], false),
    (&[(0, 0, 1), (0, 16, 8), (16, 16, 1)], false),
];

/// The matrix with these words at their places, and 0 elsewhere.
fn matrix_with(words: &[Place]) -> Mat {
    let mut m = Mat::zero();
    for (i, j, word) in words {
        if *i < 17 && *j < 17 {
            m = m.with(17 * *i + *j, *word);
        }
    }
    m
}

fn products_take_right_first() -> bool {
    let add_8 = matrix_with(&ADD_8);
    let triple = matrix_with(&TRIPLE);
    product(&add_8, &triple) == matrix_with(&TRIPLE_THEN_ADD)
        && product(&triple, &add_8) == matrix_with(&ADD_THEN_TRIPLE)
        && product(&identity(2), &add_8) == add_8
}

fn images_are_taken() -> bool {
    let state = Row::<17>::zero().with(0, 5).with(16, 1);
    let take = Row::<17>::zero().with(0, 2).with(16, 1);
    apply(&matrix_with(&TRIPLE_THEN_ADD), &state) == state.with(0, 23)
        && apply(&matrix_with(&ADD_THEN_TRIPLE), &state) == state.with(0, 39)
        && after_affine(&matrix_with(&TRIPLE), 1, &take) == matrix_with(&TRIPLE_THEN_TAKE)
}

fn calls_keep_names() -> bool {
    extend_call(&matrix_with(&CALLEE), 0b001, 0b010) == matrix_with(&CALLED)
        && extend_call(&Mat::zero(), 0b001, 0b010) == Mat::zero()
}

fn x_is_kept() -> bool {
    for (words, kept) in KEPT.iter() {
        if keeps(&matrix_with(words), 0) != *kept {
            return false;
        }
    }
    true
}

#[test]
fn products_take_the_right_factor_first(rt: HostRuntime) {
    assert!(rt; products_take_right_first());
    assert!(rt; images_are_taken());
}

#[test]
fn calls_keep_registers_and_slots_alone(rt: HostRuntime) {
    assert!(rt; calls_keep_names());
}

#[test]
fn a_kept_position_has_the_constant_word_alone(rt: HostRuntime) {
    assert!(rt; x_is_kept());
}

#[test]
fn laws_run_nothing() {
    products_associate();
    matrices_on_positions();
    maps_are_linear();
    affine_maps_compose();
    keeping_is_linear();
}
