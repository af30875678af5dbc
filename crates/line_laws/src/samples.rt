//! What records show, on small ones: the right line, and a wrong one.
ghost use Rattle.std.specs.Prelude.{[], codes};
ghost use Rattle.record_lines.specs.declared.line.Line.{Line};
ghost use Rattle.node_state.specs.declared.happened.Happened.TheVariants.{Up};
ghost use Rattle.line_laws.specs.Samples.{line_in, put_in};
ghost use Rattle.line_laws.specs.Shown.{Shows, ShowsWhole};

/// A record of a message shows the group: a line without it is not its line.
#[tactic(auto, using(crate::proofs::Worked::shows_group, crate::proofs::Worked::hides_no_group))]
pub fn records_show_their_group()
    ensures accepted { ShowsWhole (put_in (codes "db")) (line_in (codes "db")) }
    ensures refused { Shows (put_in (codes "db")) (line_in []) → ⊥ }
{}

/// No node is 0: a record of it does not fit.
#[tactic(auto, using(crate::proofs::Worked::zero_is_none))]
pub fn node_zero_does_not_fit()
    ensures { (l : Line) → ShowsWhole (Up 0 1) l → ⊥ }
{}
