//! Laws of machines: what holds of every state that one stands for. Each is the contract of a function that does nothing.

ghost use Rattle.service_code.specs.declared.program.Program.{Program};
ghost use Rattle.service_verify.specs.Fit.{IsFit};
ghost use Rattle.service_verify.specs.Points.{IsVerified};
ghost use Rattle.wave_theory.specs.Complete.{Complete};
ghost use Rattle.wave_theory.specs.Hands.{HandsStay};
ghost use Rattle.wave_theory.specs.Independent.{Independent};
ghost use Rattle.wave_theory.specs.NeverStuck.{NeverStuck};
ghost use Rattle.wave_theory.specs.Numbers.{Numbers};
ghost use Rattle.wave_theory.specs.Owners.{ByOwners, OneOwner};
ghost use Rattle.wave_theory.specs.Records.{Records};
ghost use Rattle.wave_theory.specs.Results.{Results, Tickets};
ghost use Rattle.wave_theory.specs.Trails.{Trails};
ghost use Rattle.plan_actors.specs.PlanActors.{plan_actors};
ghost use Rattle.wave_effects.specs.Always.{Holds, IsShort};

use plan_actors::{PlanActors, runs_are_short};
use wave_theory::{
    by_owners, complete, hands_stay, independent, never_stuck, numbers, one_owner, records,
    results, tickets, trails,
};

/// The committed results are the first of the fold, the known jobs have the fold's tickets, an entry number is its ticket's place
/// among those that enter the context, and a context that nobody changes is as the fold has it. A finished machine has committed
/// all jobs, has nothing under way, and has the fold's last tree on the fold's hosts.
pub fn machines_follow_the_fold()
    ensures results { Holds (λ kind workers. Results kind) }
    ensures tickets { Holds (λ kind workers. Tickets kind) }
    ensures numbers { Holds (λ kind workers. Numbers kind) }
    ensures records { Holds (λ kind workers. Records kind) }
    ensures complete { Holds Complete }
{
    results::<PlanActors>();
    tickets::<PlanActors>();
    numbers::<PlanActors>();
    records::<PlanActors>();
    complete::<PlanActors>();
}

/// Each context that is there has a trail of hosts, and one owner, which takes the labels there.
pub fn contexts_have_owners()
    ensures trails { Holds (λ kind workers. Trails kind) }
    ensures one { Holds OneOwner }
    ensures by_owners { Holds ByOwners }
{
    trails::<PlanActors>();
    one_owner::<PlanActors>();
    by_owners::<PlanActors>();
}

/// An idle worker is never kept waiting by younger tickets alone, and the labels come to an end.
pub fn machines_come_to_an_end()
    ensures never_stuck { Holds NeverStuck }
    ensures short { IsShort }
{
    never_stuck::<PlanActors>();
    runs_are_short();
}

/// Two labels of different tickets can be taken in either order, and what is in a worker's hand changes by its labels alone.
pub fn labels_are_apart()
    ensures independent { (program : Program) → IsFit program → IsVerified program → Independent (plan_actors program) }
    ensures hands { (program : Program) → IsFit program → IsVerified program → HandsStay (plan_actors program) }
{
    independent::<PlanActors>();
    hands_stay::<PlanActors>();
}
