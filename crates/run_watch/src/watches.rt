//! The four watches.

ghost use Rattle.std.specs.Prelude.{◌≡◌};

use crate::context::{Found, WatchCtx};
use crate::details::{code_detail, found_at, relation_detail, return_detail, store_detail};
use crate::watch::Watch;
use rv_step::StepRec;
use std::marker::Model;

/// Kind 1: finds where the report calls a point unreached, or has a row that the words there break.
#[derive(Drop)]
pub struct RelationWatch {
    found: Option<Found>,
}

impl Model for RelationWatch {
    ghost use Rattle.std.specs.Prelude.{Option};
    ghost use Rattle.run_watch.specs.declared.context.Found.{Found};

    ghost Value = { Option Found };

    ghost view = { λ w. w.found };
}

impl RelationWatch {
    /// It has found nothing.
    pub fn new() -> Self
        ensures { result ≡ None }
    {
        RelationWatch { found: None }
    }
}

impl Watch for RelationWatch {
    ghost kind_of = { λ w. 1 };

    ghost state = { λ w. w };

    fn kind(&self) -> u8 {
        1
    }

    fn see(&mut self, ctx: &WatchCtx, rec: &StepRec) {
        if self.found.is_none() {
            self.found = found_at(rec, relation_detail(ctx));
        }
    }

    fn found(&self) -> Option<Found> {
        self.found
    }
}

/// Kind 2: finds where a step changes a byte of a live slot to which the point doesn't assign.
#[derive(Drop)]
pub struct StoreWatch {
    found: Option<Found>,
}

impl Model for StoreWatch {
    ghost use Rattle.std.specs.Prelude.{Option};
    ghost use Rattle.run_watch.specs.declared.context.Found.{Found};

    ghost Value = { Option Found };

    ghost view = { λ w. w.found };
}

impl StoreWatch {
    /// It has found nothing.
    pub fn new() -> Self
        ensures { result ≡ None }
    {
        StoreWatch { found: None }
    }
}

impl Watch for StoreWatch {
    ghost kind_of = { λ w. 2 };

    ghost state = { λ w. w };

    fn kind(&self) -> u8 {
        2
    }

    fn see(&mut self, ctx: &WatchCtx, rec: &StepRec) {
        if self.found.is_none() {
            self.found = found_at(rec, store_detail(ctx, rec));
        }
    }

    fn found(&self) -> Option<Found> {
        self.found
    }
}

/// Kind 3: finds where a return doesn't go to its caller with sp and the relied registers restored.
#[derive(Drop)]
pub struct ReturnWatch {
    found: Option<Found>,
}

impl Model for ReturnWatch {
    ghost use Rattle.std.specs.Prelude.{Option};
    ghost use Rattle.run_watch.specs.declared.context.Found.{Found};

    ghost Value = { Option Found };

    ghost view = { λ w. w.found };
}

impl ReturnWatch {
    /// It has found nothing.
    pub fn new() -> Self
        ensures { result ≡ None }
    {
        ReturnWatch { found: None }
    }
}

impl Watch for ReturnWatch {
    ghost kind_of = { λ w. 3 };

    ghost state = { λ w. w };

    fn kind(&self) -> u8 {
        3
    }

    fn see(&mut self, ctx: &WatchCtx, rec: &StepRec) {
        if self.found.is_none() {
            self.found = found_at(rec, return_detail(ctx, rec));
        }
    }

    fn found(&self) -> Option<Found> {
        self.found
    }
}

/// Kind 4: finds where a step changes a byte of an instruction.
#[derive(Drop)]
pub struct CodeWatch {
    found: Option<Found>,
}

impl Model for CodeWatch {
    ghost use Rattle.std.specs.Prelude.{Option};
    ghost use Rattle.run_watch.specs.declared.context.Found.{Found};

    ghost Value = { Option Found };

    ghost view = { λ w. w.found };
}

impl CodeWatch {
    /// It has found nothing.
    pub fn new() -> Self
        ensures { result ≡ None }
    {
        CodeWatch { found: None }
    }
}

impl Watch for CodeWatch {
    ghost kind_of = { λ w. 4 };

    ghost state = { λ w. w };

    fn kind(&self) -> u8 {
        4
    }

    fn see(&mut self, ctx: &WatchCtx, rec: &StepRec) {
        if self.found.is_none() {
            self.found = found_at(rec, code_detail(ctx, rec));
        }
    }

    fn found(&self) -> Option<Found> {
        self.found
    }
}
