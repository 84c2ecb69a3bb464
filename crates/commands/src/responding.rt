// A line answered on a planner.
ghost use Rattle.std.specs.Prelude.{◌≡◌};
ghost use Rattle.calls.specs.Planners.{stage_of, pile_of};
ghost use Rattle.commands.specs.Buffers.{held, held_call};
ghost use Rattle.commands.specs.Responding.{reply_to, stage_past, Responds};

use crate::buffer::LineBuffer;
use crate::reply::Reply;
use calls::planning::Planner;
use rule::narrowing::Rule;

/// Carries out the call that the line writes, and answers it. An ill written line changes nothing.
pub fn respond<P: Rule>(planner: Planner<P>, line: &LineBuffer) -> (Planner<P>, Reply)
    ensures reply { result.1 ≡ reply_to (P.Rule.cut (pile_of planner)) (stage_of planner) (held_call (held line.now)) }
    ensures stage { stage_of result.0 ≡ stage_past (P.Rule.cut (pile_of planner)) (stage_of planner) (held_call (held line.now)) }
    ensures pile { pile_of result.0 ≡ pile_of planner }
    ensures promise { Responds (P.Rule.admits (pile_of planner)) (P.Rule.cut (pile_of planner)) (stage_of planner) (held_call (held line.now)) (stage_of result.0) }
{
    match line.call() {
        Some(call) => {
            let (planner, answer) = planner.carry_out(call);
            (planner, Reply::Answered(answer))
        }
        None => (planner, Reply::IllWritten),
    }
}
