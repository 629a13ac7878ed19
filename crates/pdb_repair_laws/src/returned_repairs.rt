//! Law on the repairs that a session returns.

ghost use Rattle.std.specs.Prelude.{◌++◌, ℕ, List};
ghost use Rattle.pdb_container.specs.Front.{SameFront};
ghost use Rattle.pdb_container.specs.ModulePlaces.{ModuleOrFault};
ghost use Rattle.pdb_repairs.specs.declared.repairs.Repair.{Repair};
ghost use Rattle.pdb_session.specs.Session.{SessionFile};
ghost use Rattle.pdb_session.specs.UntoldRepairs.{TellsAt};

/// Two calls in turn return together what one call for all their addresses returns, and leave what it leaves. So it
/// doesn't matter how addresses are divided among calls.
pub fn calls_in_turn_return_what_one_returns()
    ensures { (first second third : SessionFile) (modules : List ModuleOrFault) (addresses more : List ℕ)
        (repairs others : List Repair) → SameFront first.known.records second.known.records
        → TellsAt first second addresses repairs modules → TellsAt second third more others modules
        → TellsAt first third (addresses ++ more) (repairs ++ others) modules }
{}
