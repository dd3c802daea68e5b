#![tactic(auto)]
// Run and resume of a program's bytes (reference `evaluate_into`).
ghost use Rattle.std.specs.Prelude.{◌≡◌, true, false, ◌||◌, List, [], ◌∷◌, ℕ, Float, ◌+◌, ◌-◌, ◌<◌, ◌≤◌, length, ltb};
ghost use Rattle.std.proofs.Math.Option.{none, some};
ghost use Rattle.std.specs.Float.{binary64};
ghost use Rattle.arithmetic.specs.Value.{finite};
ghost use Rattle.formula.specs.Text.{all};
ghost use Rattle.formula.specs.Path.{placed};
ghost use Rattle.meaning.specs.Work as meaning;
ghost use Rattle.machine.specs.Program.{valid};
ghost use Rattle.machine.specs.Machine.{fresh, number_of, place_of};
ghost use Rattle.machine.specs.Progress.{Lawful};
ghost use Rattle.layout.specs.Decode.{code_count, program_at, slot_at};
ghost use Rattle.work.specs.View.{kept_values, question_of};
ghost use Rattle.work.specs.declared.Outcome.TheVariants.{Value};
ghost use Rattle.instruction.specs.Effects.{effect_at};
ghost use Rattle.instruction.specs.declared.Effect.TheVariants.{Work};
ghost use Rattle.run.specs.Views.{HandsBack, Writable, answer_of, pending_of, refusal_number, reply_of, state_of, supplied_of};
ghost use Rattle.run.specs.Calls.{after, KnownPlace, Reaches, Results, bare, putting, resume_at, run_at, LongEnough, Settled, single, stale_at, steps_at, supplying, unfit_at};

use floats::value::{bits_of, is_finite};
use instruction::{Effect, Progress};
use layout::opcode::{LOG, SQRT};
use layout::{CODE_AT, DESTINATION_AT, HEADER_SIZE, INPUTS_AT, REGISTERS_AT, RESULT_AT, SLOT_SIZE};
use reader::{byte, known_word, word};
use refusals::Refusal;
use work::{Kept, LOG_NUMBER, Outcome, Question};

// "Run state: made by the run, read by the next call": position, "the values supplied" to a half-done Hill or density, and
// the question that was shown and has no answer yet.
#[derive(Clone, Copy)]
pub struct State {
    pub position: usize,
    pub kept: Kept,
    pub pending: Option<Question>,
}

impl State {
    // Nothing kept or pending.
    fn bare(position: usize) -> State
        ensures { state_of result ≡ bare position }
    {
        State {
            position,
            kept: Kept::new(),
            pending: None,
        }
    }

    // "A fresh state is at the first instruction, nothing kept or pending"
    pub fn fresh() -> State
        ensures { state_of result ≡ fresh }
    {
        State::bare(0)
    }
}

// "The answer of a run carries its number in the case": a value; a question; spent; 9, with the number of its path's
// record; another refusal.
#[derive(Clone, Copy)]
pub enum Answer {
    Value(f64),
    Question(Question),
    Spent,
    Domain(usize),
    Refused(Refusal),
}

// "The count returned is the instructions completed by this call."
#[derive(Clone, Copy)]
pub struct Reply {
    pub answer: Answer,
    pub count: usize,
    pub state: State,
}

impl Reply {
    // "These change no register and hand the state back unaltered."
    fn refused(refusal: Refusal, state: State) -> Reply
        ensures { result ≡ record { answer = Answer.Refused refusal; count = 0; state = state } }
    {
        Reply {
            answer: Answer::Refused(refusal),
            count: 0,
            state,
        }
    }
}

// Where a run stands, and what is left of its budget.
#[derive(Clone, Copy)]
pub struct Place {
    pub at: usize,
    pub left: usize,
}

impl Place {
    // After one more instruction.
    fn next(self, to: usize) -> Place
        requires { 0 < self.left }
        ensures { result ≡ record { at = to; left = self.left - 1 } }
    {
        Place {
            at: to,
            left: self.left - 1,
        }
    }
}

// ---- the loop
// Program, inputs and registers stay slices beside each other: of a struct that lends the registers each contract would have to
// say that it still lends the same ones, and that of the other two is read as `given.entry.program.now` in a clause.

// Common instructions from a place on, nothing kept: to the code's end, the budget's, or the first that is another.
// Not in line in `along`: beside its calls the loop has too few registers, and a run of 255 takes 1.4 times as long.
#[inline(never)]
#[tactic(auto, using(crate::proofs::Looping::code_small, crate::proofs::Looping::reached), unfolding(layout::specs::Decode::code_count))]
fn straight(p: &[u8], inputs: &[f64], regs: &mut [f64], from: Place) -> Place
    requires { slot_at (code_count p.now) ≤ length p.now }
    ensures { Reaches inputs.now p.now from.left from.at [] regs.old result.left result.at [] regs.new }
{
    let code = known_word(p, CODE_AT);
    let mut place = from;
    // No `for` over the budget: what is left of it is handed back.
    while 0 < place.left && place.at < code {
        match instruction::common::step(p, place.at, inputs, regs) {
            Some(to) => place = place.next(to),
            None => return place,
        }
    }
    place
}

// The same, but nothing is done where the first, by its opcode, may be one that takes longer: of such in a row each would be handed back.
#[tactic(auto, using(crate::proofs::Looping::code_small, crate::proofs::Looping::reached), unfolding(layout::specs::Decode::code_count))]
fn shortly(p: &[u8], inputs: &[f64], regs: &mut [f64], from: Place) -> Place
    requires { slot_at (code_count p.now) ≤ length p.now }
    ensures { Reaches inputs.now p.now from.left from.at [] regs.old result.left result.at [] regs.new }
{
    if from.at < known_word(p, CODE_AT)
        && SQRT <= usize::from(p[HEADER_SIZE + SLOT_SIZE * from.at])
    {
        return from;
    }
    straight(p, inputs, regs, from)
}

// The same to a question, a Domain, Hill or the density. Where slots are missing, nothing is done.
#[tactic(auto, using(crate::proofs::Looping::reached), unfolding(layout::specs::Decode::code_count))]
pub fn along(p: &[u8], inputs: &[f64], regs: &mut [f64], from: Place) -> Place
    ensures { Reaches inputs.now p.now from.left from.at [] regs.old result.left result.at [] regs.new }
{
    let code = word(p, CODE_AT);
    if p.len() < HEADER_SIZE + SLOT_SIZE * code {
        return from;
    }
    let mut place = from;
    loop {
        place = shortly(p, inputs, regs, place);
        if code <= place.at || place.left == 0 {
            return place;
        }
        match instruction::longer::step(p, place.at, regs) {
            Some(to) => place = place.next(to),
            None => return place,
        }
    }
}

// "Spent means that the whole budget was completed and code remains": the code's end is looked at first, then the
// budget, then the instruction. What is kept is for one instruction only.
pub fn steps(p: &[u8], inputs: &[f64], regs: &mut [f64], from: Place, kept: Kept) -> Reply
    ensures reply { reply_of p.now result regs.new ≡ steps_at inputs.now p.now from.left from.at (kept_values kept) regs.old }
    ensures place { KnownPlace p.now result.answer }
{
    let code = word(p, CODE_AT);
    let mut place = from;
    let none = Kept::new();
    let mut held = kept;
    if kept.count == 0 {
        place = along(p, inputs, regs, from);
    }
    // No `for`, as in `straight`.
    while 0 < place.left && place.at < code {
        match instruction::step(p, place.at, inputs, regs, held) {
            Progress::Next(to) => {
                held = none;
                place = along(p, inputs, regs, place.next(to));
            }
            Progress::Domain(k) => {
                return Reply {
                    answer: Answer::Domain(k),
                    count: from.left - place.left,
                    state: State::bare(code),
                };
            }
            Progress::Question(question) => {
                return Reply {
                    answer: Answer::Question(question),
                    count: from.left - place.left,
                    state: State {
                        position: place.at,
                        kept: held,
                        pending: Some(question),
                    },
                };
            }
        }
    }
    ends(p, regs, from.left - place.left, place.at, held)
}

// How a call ends that comes to the code's end, with its value, or has no budget left. "After a value or 9 the position is
// the code's end."
#[tactic(auto, using(crate::proofs::Looping::ended), unfolding(layout::specs::Decode::code_count, layout::specs::Decode::result_at))]
fn ends(p: &[u8], regs: &[f64], done: usize, at: usize, kept: Kept) -> Reply
    ensures reply { (inputs : List Float) (left : ℕ) → (at < code_count p.now → left ≡ 0) → reply_of p.now result regs.now ≡ after done (steps_at inputs p.now left at (kept_values kept) regs.now) }
    ensures place { KnownPlace p.now result.answer }
{
    let code = word(p, CODE_AT);
    if code <= at {
        let value = instruction::value_at(regs, word(p, RESULT_AT));
        return Reply {
            answer: Answer::Value(value),
            count: done,
            state: State::bare(code),
        };
    }
    Reply {
        answer: Answer::Spent,
        count: done,
        state: State {
            position: at,
            kept,
            pending: None,
        },
    }
}

// ---- refusals

fn all_finite(xs: &[f64]) -> bool
    ensures { result ≡ all finite xs.now }
{
    xs.iter().all(|x| is_finite(*x))
}

fn same_bits(x: f64, y: f64) -> bool
    ensures { result ≡ meaning.same_bits binary64 x y }
{
    bits_of(x) == bits_of(y)
}

// Compared by bits, every NaN as one. No derived PartialEq: it compares values, so -0 is +0 and no NaN is itself.
fn same_question(question: Question, other: Question) -> bool
    ensures { result ≡ meaning.same_question binary64 (question_of question) (question_of other) }
{
    match (question, other) {
        (Question::Elementary(f, x), Question::Elementary(g, y)) => f == g && same_bits(x, y),
        (Question::Power(a, b), Question::Power(c, d)) => same_bits(a, c) && same_bits(b, d),
        _ => false,
    }
}

fn puts(effect: Effect, question: Question) -> bool
    ensures { result ≡ putting (question_of question) effect }
{
    matches!(effect, Effect::Work(Outcome::Question(other)) if same_question(question, other))
}

// "5 at `root`, input count wrong, too few registers, an input not finite, or budget 0"
#[tactic(auto, using(crate::proofs::Late::unfit_is))]
pub fn unfit(p: &[u8], inputs: &[f64], regs: &[f64], budget: usize) -> bool
    ensures { result ≡ unfit_at inputs.now p.now regs.now budget }
{
    inputs.len() != word(p, INPUTS_AT)
        || regs.len() < word(p, REGISTERS_AT)
        || !all_finite(inputs)
        || budget == 0
}

// "11 (resume), position not at an instruction, a pending question that this instruction, with these registers and
// kept values, doesn't put, or a value supplied while no question shown for that instruction is pending"
#[tactic(auto, using(crate::proofs::Late::told_stale), unfolding(layout::specs::Decode::code_count))]
fn stale(p: &[u8], inputs: &[f64], regs: &[f64], state: State, supplied: Option<f64>) -> bool
    ensures { result ≡ stale_at inputs.now p.now regs.now state.position (kept_values state.kept) (pending_of state.pending) (supplied_of supplied) }
{
    if word(p, CODE_AT) <= state.position {
        return true;
    }
    let Some(question) = state.pending else {
        return supplied.is_some();
    };
    let effect = instruction::effect_at(p, state.position, inputs, regs, state.kept);
    !puts(effect, question)
}

// Whether the instruction that put this question, nothing kept, puts no other. Hill and density begin with a Log.
#[tactic(auto, using(crate::proofs::Looping::code_small))]
fn is_single(p: &[u8], position: usize, pending: Option<Question>) -> bool
    requires { position < code_count p.now }
    ensures { result ≡ single p.now position (pending_of pending) }
{
    match pending {
        None => false,
        Some(Question::Elementary(f, _)) => {
            f != LOG_NUMBER || usize::from(byte(p, HEADER_SIZE + SLOT_SIZE * position)) == LOG
        }
        Some(Question::Power(_, _)) => true,
    }
}

// Whether the value supplied is the instruction's result.
fn is_result(p: &[u8], state: State, value: f64) -> bool
    requires { state.position < code_count p.now }
    ensures { result ≡ true → Results p.now state.position (kept_values state.kept) (pending_of state.pending) (some value) value }
{
    state.kept.count == 0 && is_single(p, state.position, state.pending) && is_finite(value)
}

// Goes on after an instruction whose result was supplied.
#[tactic(auto, using(crate::proofs::Looping::code_small))]
fn answered(p: &[u8], inputs: &[f64], regs: &mut [f64], from: Place, value: f64) -> Reply
    requires { (0 < from.left) × (from.at < code_count p.now) × (finite value ≡ true) × (effect_at inputs.now p.now from.at (value ∷ []) regs.old ≡ Work (Value value)) }
    ensures reply { reply_of p.now result regs.new ≡ steps_at inputs.now p.now from.left from.at (value ∷ []) regs.old }
    ensures place { KnownPlace p.now result.answer }
{
    let to = word(p, HEADER_SIZE + SLOT_SIZE * from.at + DESTINATION_AT);
    instruction::store(regs, to, value);
    let reply = steps(p, inputs, regs, from.next(from.at + 1), Kept::new());
    Reply {
        count: reply.count + 1,
        ..reply
    }
}

// A state that fits goes on, with the value supplied. Here and below budget, state and value stay three: each clause names them apart, as the machine's `resume` does.
#[tactic(auto, using(crate::proofs::Single::at_code, crate::proofs::Single::result_effect))]
fn goes(
    p: &[u8],
    inputs: &[f64],
    regs: &mut [f64],
    budget: usize,
    state: State,
    supplied: Option<f64>,
) -> Reply
    requires { (0 < budget) × (stale_at inputs.now p.now regs.old state.position (kept_values state.kept) (pending_of state.pending) (supplied_of supplied) ≡ false) }
    ensures reply { reply_of p.now result regs.new ≡ steps_at inputs.now p.now budget state.position (supplying (kept_values state.kept) (supplied_of supplied)) regs.old }
    ensures place { KnownPlace p.now result.answer }
{
    let from = Place {
        at: state.position,
        left: budget,
    };
    match supplied {
        None => steps(p, inputs, regs, from, state.kept),
        Some(value) => {
            if is_result(p, state, value) {
                return answered(p, inputs, regs, from, value);
            }
            steps(p, inputs, regs, from, state.kept.with(value))
        }
    }
}

// ---- the calls

// Whether the bytes needn't be refused by 10: 1 comes before it, or they are a program.
pub fn goes_on(p: &[u8], room: usize) -> bool
    ensures { result ≡ (ltb room 8192 || valid (program_at p.now)) }
{
    room < 8192 || program::is_program(p)
}

// "A refusal with a place writes the text, then zeros to the slice's end. Otherwise it isn't written."
fn write_place(p: &[u8], answer: Answer, path: &mut [u8])
    requires { 8192 ≤ length path.old }
    ensures { (valid (program_at p.now) ≡ true) × Writable p.now 8192 answer → path.new ≡ placed (place_of (answer_of p.now answer)) path.old }
{
    match answer {
        Answer::Domain(k) => program::write_place(p, k, path),
        Answer::Refused(Refusal::InvalidInput) => paths::write_root(path),
        _ => {}
    }
}

// The end of a call that came to a place, nothing kept, with so many instructions completed; and the text of its
// place.
pub fn rest(
    p: &[u8],
    inputs: &[f64],
    regs: &mut [f64],
    path: &mut [u8],
    done: usize,
    from: Place,
) -> Reply
    requires { (8192 ≤ length path.old) × (done + from.left < 18446744073709551616) }
    ensures reply { reply_of p.now result regs.new ≡ after done (steps_at inputs.now p.now from.left from.at [] regs.old) }
    ensures place { valid (program_at p.now) ≡ true → path.new ≡ placed (place_of (answer_of p.now result.answer)) path.old }
{
    let reply = steps(p, inputs, regs, from, Kept::new());
    write_place(p, reply.answer, path);
    Reply {
        count: done + reply.count,
        ..reply
    }
}

// A resume after 1 and 10 were looked at, with the place of a refusal left to the caller to write.
fn resume_reply(
    p: &[u8],
    inputs: &[f64],
    regs: &mut [f64],
    budget: usize,
    state: State,
    supplied: Option<f64>,
) -> Reply
    ensures reply { valid (program_at p.now) ≡ true → LongEnough (λ room. reply_of p.now result regs.new ≡ resume_at inputs.now p.now room budget (supplied_of supplied) (state_of state) regs.old) }
    ensures place { valid (program_at p.now) ≡ true → Writable p.now 8192 result.answer }
    ensures state { HandsBack state result }
{
    if unfit(p, inputs, regs, budget) {
        return Reply::refused(Refusal::InvalidInput, state);
    }
    if stale(p, inputs, regs, state, supplied) {
        return Reply::refused(Refusal::StaleState, state);
    }
    goes(p, inputs, regs, budget, state, supplied)
}

// The same of a run.
pub fn run_reply(p: &[u8], inputs: &[f64], regs: &mut [f64], budget: usize) -> Reply
    ensures reply { valid (program_at p.now) ≡ true → LongEnough (λ room. reply_of p.now result regs.new ≡ run_at inputs.now p.now room budget regs.old) }
    ensures place { valid (program_at p.now) ≡ true → Writable p.now 8192 result.answer }
    ensures state { (refusal : Refusal) → result.answer ≡ Answer.Refused refusal → state_of result.state ≡ fresh }
{
    resume_reply(p, inputs, regs, budget, State::fresh(), None)
}

// A resume without the check of the bytes. Where they are a program, or the path slice is too short, it is `resume`.
// Otherwise it ends too and stays inside the slices, and what it answers and leaves in them is free. A refusal hands
// the state back in any case.
pub fn resume_unchecked(
    p: &[u8],
    inputs: &[f64],
    regs: &mut [f64],
    path: &mut [u8],
    budget: usize,
    state: State,
    supplied: Option<f64>,
) -> Reply
    ensures reply { Settled p.now (length path.old) → reply_of p.now result regs.new ≡ resume_at inputs.now p.now (length path.old) budget (supplied_of supplied) (state_of state) regs.old }
    ensures place { Settled p.now (length path.old) → path.new ≡ placed (place_of (answer_of p.now result.answer)) path.old }
    ensures state { HandsBack state result }
    ensures number { Settled p.now (length path.old) → refusal_number result.answer ≡ number_of (resume_at inputs.now p.now (length path.old) budget (supplied_of supplied) (state_of state) regs.old).answer }
    ensures lawful { Settled p.now (length path.old) → Lawful binary64 inputs.now (program_at p.now) budget (supplied_of supplied) (state_of state) regs.old (reply_of p.now result regs.new) }
{
    if path.len() < 8192 {
        return Reply::refused(Refusal::SliceTooShort, state);
    }
    let reply = resume_reply(p, inputs, regs, budget, state, supplied);
    write_place(p, reply.answer, path);
    reply
}

// A run without the check of the bytes, as `resume_unchecked`.
pub fn run_unchecked(
    p: &[u8],
    inputs: &[f64],
    regs: &mut [f64],
    path: &mut [u8],
    budget: usize,
) -> Reply
    ensures reply { Settled p.now (length path.old) → reply_of p.now result regs.new ≡ run_at inputs.now p.now (length path.old) budget regs.old }
    ensures place { Settled p.now (length path.old) → path.new ≡ placed (place_of (answer_of p.now result.answer)) path.old }
    ensures number { Settled p.now (length path.old) → refusal_number result.answer ≡ number_of (run_at inputs.now p.now (length path.old) budget regs.old).answer }
    ensures lawful { Settled p.now (length path.old) → Lawful binary64 inputs.now (program_at p.now) budget none fresh regs.old (reply_of p.now result regs.new) }
{
    resume_unchecked(p, inputs, regs, path, budget, State::fresh(), None)
}

// "In order: 1, path slice too short; 10, not a program; 5 at `root` ..; 11 (resume) .. Otherwise: a value, a
// question, spent, or 9 at the instruction's path."
pub fn resume(
    p: &[u8],
    inputs: &[f64],
    regs: &mut [f64],
    path: &mut [u8],
    budget: usize,
    state: State,
    supplied: Option<f64>,
) -> Reply
    ensures reply { reply_of p.now result regs.new ≡ resume_at inputs.now p.now (length path.old) budget (supplied_of supplied) (state_of state) regs.old }
    ensures place { path.new ≡ placed (place_of (answer_of p.now result.answer)) path.old }
    ensures state { HandsBack state result }
    ensures number { refusal_number result.answer ≡ number_of (resume_at inputs.now p.now (length path.old) budget (supplied_of supplied) (state_of state) regs.old).answer }
    ensures lawful { Lawful binary64 inputs.now (program_at p.now) budget (supplied_of supplied) (state_of state) regs.old (reply_of p.now result regs.new) }
{
    if goes_on(p, path.len()) {
        return resume_unchecked(p, inputs, regs, path, budget, state, supplied);
    }
    Reply::refused(Refusal::NoProgram, state)
}

// A run resumes a fresh state, with no value.
pub fn run(p: &[u8], inputs: &[f64], regs: &mut [f64], path: &mut [u8], budget: usize) -> Reply
    ensures reply { reply_of p.now result regs.new ≡ run_at inputs.now p.now (length path.old) budget regs.old }
    ensures place { path.new ≡ placed (place_of (answer_of p.now result.answer)) path.old }
    ensures number { refusal_number result.answer ≡ number_of (run_at inputs.now p.now (length path.old) budget regs.old).answer }
    ensures lawful { Lawful binary64 inputs.now (program_at p.now) budget none fresh regs.old (reply_of p.now result regs.new) }
{
    resume(p, inputs, regs, path, budget, State::fresh(), None)
}
