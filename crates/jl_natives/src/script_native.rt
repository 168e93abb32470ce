//! A native of the outside whose answers stand in a list.

ghost use Rattle.std.specs.Prelude.{◌≡◌, ◌≤◌, [], Some, true, IsTrue, IfSome, Err};
ghost use Rattle.std.specs.List.{list_all};
ghost use Rattle.jl_logic.specs.Answers.{Tells};
ghost use Rattle.jl_logic.specs.Counts.{Rose};
ghost use Rattle.jl_natives.specs.Table.{takes, gives, row_of, is_outside};
ghost use Rattle.jl_natives.specs.Boxes.{told, IsFromOutside, answers_after, faults_after};
ghost use Rattle.jl_natives.specs.Script.{script_view, known, next_of, after_call};
ghost use Rattle.jl_natives.specs.declared.native.NativeEnd.TheVariants as ends;

use crate::count::one_more;
use crate::native::{NativeEnd, NativeOp};
use crate::plain::Plain;
use jl_prim::Items;
use std::alloc::Global;
use std::marker::Model;

/// Gives its answers in their order, whatever it is asked, and tells them. Past their end it fails.
#[derive(Drop)]
pub struct ScriptNative {
    row: u16,
    answers: Items<Plain>,
    given: usize,
    faults: u64,
}

impl Model for ScriptNative {
    ghost use Rattle.std.specs.Prelude.{◌≤◌, length, take, drop, IsTrue};
    ghost use Rattle.std.specs.List.{list_all};
    ghost use Rattle.jl_natives.specs.Table.{gives, is_outside};
    ghost use Rattle.jl_natives.specs.Script.{Script};

    ghost Value = { Script };

    ghost view = { λ s. record { row = s.row; given = take s.given s.answers; left = drop s.given s.answers; faults = s.faults } };

    ghost invariant = { λ s. (s.given ≤ length s.answers) × IsTrue (is_outside s.row) × IsTrue (list_all (gives s.row) s.answers) };
}

impl ScriptNative {
    /// A native of this row, which the outside decides, with these answers, which are of its kind.
    pub fn new(row: u16, answers: Items<Plain>) -> ScriptNative
        requires outside { IsTrue (is_outside row) }
        requires kinds { IsTrue (list_all (gives row) answers) }
        ensures { result ≡ record { row = row; given = []; left = answers; faults = 0 } }
    {
        ScriptNative {
            row,
            answers,
            given: 0,
            faults: 0,
        }
    }
}

impl NativeOp for ScriptNative {
    ghost view = { script_view };

    fn row(&self) -> u16 {
        self.row
    }

    fn call(&mut self, _alloc: Global, args: &[Plain]) -> Result<Plain, NativeEnd>
        requires { IsTrue (takes self.old.row args.now) }
        // The next answer, and past the end a failure.
        ensures next { Tells known result (next_of self.old.left) }
        ensures leaves { self.new ≡ after_call result self.old }
        ensures same_row { self.new.row ≡ self.old.row }
        ensures decided { IfSome (row_of self.old.row args.now) (λ answer. Tells told result answer) }
        ensures from_outside { IsTrue (is_outside self.old.row) → IsFromOutside self.old.row result }
        ensures answers { Some self.new.given ≡ answers_after self.old.row result (Some self.old.given) }
        ensures failed { result ≡ Err ends.Failed → IsTrue (is_outside self.old.row) × Rose self.old.faults self.new.faults }
        ensures counts { self.old.faults ≤ self.new.faults }
        ensures same_exactness { true ≡ true }
        ensures exact { IsTrue true → self.new.faults ≡ faults_after result self.old.faults }
    {
        if self.given >= self.answers.len() {
            self.faults = one_more(self.faults);
            return Err(NativeEnd::Failed);
        }
        let answer = self.answers.as_slice()[self.given].copy()?;
        self.given += 1;
        Ok(answer)
    }
}
