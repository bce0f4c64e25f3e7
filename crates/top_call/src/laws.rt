//! What holds of calls. The function runs nothing; its contract is a law.

ghost use Rattle.top_call.specs.Laws.{ReadFaultsHaveCauses, WriteFaultsHaveCauses};

/// Over files that never fail no answer is a read fault, whatever the sink does; and over a sink that never fails none is a
/// write fault, whatever the files do.
pub fn faults_have_causes()
    ensures reads { ReadFaultsHaveCauses }
    ensures writes { WriteFaultsHaveCauses }
{}
