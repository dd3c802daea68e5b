// Lists of calls: a run from a fresh state, then resumes, each with state and registers as the last call left them.
ghost use Rattle.std.specs.Prelude.{◌≡◌, length};
ghost use Rattle.run.specs.Views.{reply_of};
ghost use Rattle.demand.specs.Listed.{play_at};
ghost use Rattle.demand.specs.Last.{Demand};

use run::Reply;

// A call of a list: how many bytes of the path slice it is lent, all of them at most, its budget, and the value that it
// supplies. The first is the run, which takes no value.
#[derive(Clone, Copy, Default)]
pub struct Call {
    pub room: usize,
    pub budget: usize,
    pub supplied: Option<f64>,
}

// The reply to the last call of a list, which begins with a run: without a call in it, one with no room and no budget, which is refused with 1. Each call
// is lent the first bytes of the path slice. `hosted::call_all` has a walk of its own: one for both would take a trait with a relation for a run and for
// a resume, and at each side a struct of slices with clauses that it still lends the same ones, for seven lines of code.
#[tactic(auto, using(crate::proofs::Loops::again_long, crate::proofs::Loops::left_step, crate::proofs::Loops::next_call))]
pub fn play(
    program: &[u8],
    inputs: &[f64],
    registers: &mut [f64],
    path: &mut [u8],
    calls: &[Call],
) -> Reply
    ensures reply { reply_of program.now result registers.new ≡ (play_at inputs.now program.now path.old calls.now registers.old).reply }
    ensures place { path.new ≡ (play_at inputs.now program.now path.old calls.now registers.old).path }
    ensures demand { Demand inputs.now program.now (length path.old) calls.now registers.old (reply_of program.now result registers.new) }
{
    let whole = path.len();
    let first = calls.first().copied().unwrap_or_default();
    let room = first.room.min(whole);
    let mut reply = run::run(program, inputs, registers, &mut path[..room], first.budget);
    let rest = calls.get(1..).unwrap_or(&[]);
    for call in rest {
        let room = call.room.min(whole);
        reply = run::resume(
            program,
            inputs,
            registers,
            &mut path[..room],
            call.budget,
            reply.state,
            call.supplied,
        );
    }
    reply
}
