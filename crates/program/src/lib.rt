#![tactic(auto)]
// The check of a program's bytes (docs/PROGRAM.md): "10, not a program: bytes that docs/PROGRAM.md doesn't allow, no
// instruction at all, a register, input, list or target outside its range (a target may be the code's end), a jump not
// forward, or a path above 8,192 bytes". Each record, instruction and list entry is looked at once. The header tells how
// long the whole is; after one test of that length every field is known to be there.
ghost use Rattle.std.specs.Prelude.{◌≡◌, true, false, ◌&&◌, ◌+◌, ◌*◌, ◌<◌, ◌≤◌, ltb, length, MatchOption};
ghost use Rattle.std.proofs.Math.Option.{some};
ghost use Rattle.formula.specs.Text.{word_at};
ghost use Rattle.formula.specs.Path.{placed, step_text};
ghost use Rattle.machine.specs.Program.{all_below, valid};
ghost use Rattle.layout.specs.Opcode.{step_of};
ghost use Rattle.layout.specs.Decode.{code_count, entries_from, length_at, path_number, path_of, path_total, program_at, record_ok, records_ok};
ghost use Rattle.program.specs.Check.{FitsHeader, Numbers, Slot, Whole, fields_below, header_ok, instruction_ok, instructions_ok, operands_ok, placed_ok};

use layout::opcode::{
    ADD, BRANCH, CEIL, CONSTANT, COPY, DENSITY, EXP, HILL, JUMP, LOAD, MAX, MIN, NE, NOT, POSITIVE,
};
use layout::{
    A_AT, B_AT, C_AT, CODE_AT, COUNT_AT, DESTINATION_AT, ENTRIES_AT, ENTRY_SIZE, HEADER_SIZE,
    INPUTS_AT, KIND_AT, LENGTH_AT, MAGIC, PATH_AT, PATHS_AT, RECORD_SIZE, REGISTERS_AT, RESULT_AT,
    SLOT_SIZE, STEP_AT,
};
use reader::{known_half, known_word};

// ---- header

// The numbers of the header.
#[derive(Clone, Copy)]
struct Header {
    code: usize,
    registers: usize,
    inputs: usize,
    paths: usize,
    entries: usize,
}

impl Header {
    fn read(p: &[u8]) -> Header
        requires { 32 ≤ length p.now }
        ensures { Numbers p.now result × FitsHeader result }
    {
        Header {
            code: known_word(p, CODE_AT),
            registers: known_word(p, REGISTERS_AT),
            inputs: known_word(p, INPUTS_AT),
            paths: known_word(p, PATHS_AT),
            entries: known_word(p, ENTRIES_AT),
        }
    }

    // How many bytes header, instructions, records and list entries have.
    fn size(self) -> usize
        requires { FitsHeader self }
        ensures { result ≡ 32 + 24 * self.code + 12 * self.paths + 4 * self.entries }
    {
        HEADER_SIZE + SLOT_SIZE * self.code + RECORD_SIZE * self.paths + ENTRY_SIZE * self.entries
    }
}

// Bytes whose parts, as the header counts them, are all there.
#[derive(Clone, Copy)]
struct Image<'a> {
    bytes: &'a [u8],
    header: Header,
    ghost whole: { Whole bytes.now header },
}

impl<'a> Image<'a> {
    // The bytes, where magic, kind, length and result are those of a program.
    fn new(bytes: &'a [u8]) -> Option<Image<'a>>
        ensures { MatchOption result (header_ok bytes.now ≡ false) (λ i. (header_ok bytes.now ≡ true) × (i.bytes.now ≡ bytes.now)) }
    {
        if bytes.len() < HEADER_SIZE {
            return None;
        }
        let header = Header::read(bytes);
        if known_word(bytes, 0) != MAGIC || known_word(bytes, KIND_AT) > 1 {
            return None;
        }
        if bytes.len() < header.size() {
            return None;
        }
        if header.code == 0 || known_word(bytes, RESULT_AT) >= header.registers {
            return None;
        }
        Some(Image { bytes, header })
    }

    // ---- path records

    // The byte that record k begins at.
    fn record(&self, k: usize) -> usize
        requires { k ≤ self.now.header.paths }
        ensures { result ≡ 32 + 24 * self.now.header.code + 12 * k }
    {
        HEADER_SIZE + SLOT_SIZE * self.header.code + RECORD_SIZE * k
    }

    // How many bytes the text of path k has, as its record tells.
    fn path_length(&self, k: usize) -> usize
        requires { k < self.now.header.paths }
        ensures { (result ≡ length_at self.now.bytes.now k) × (result < 4294967296) }
    {
        known_word(self.bytes, self.record(k) + LENGTH_AT)
    }

    fn root_ok(&self) -> bool
        requires { 0 < self.now.header.paths }
        ensures { result ≡ record_ok self.now.bytes.now 0 }
    {
        let at = self.record(0);
        known_word(self.bytes, at) == 0
            && known_word(self.bytes, at + STEP_AT) == 0
            && self.path_length(0) == 4
    }

    // Record k, which begins at a byte, is not the root's.
    fn record_ok(&self, k: usize, at: usize) -> bool
        requires { (0 < k) × (k < self.now.header.paths) × (at ≡ 32 + 24 * self.now.header.code + 12 * k) }
        ensures { result ≡ record_ok self.now.bytes.now k }
    {
        let parent = known_word(self.bytes, at);
        parent < k
            && known_word(self.bytes, at + LENGTH_AT)
                == self.path_length(parent) + step_length(known_word(self.bytes, at + STEP_AT))
    }

    // Not in line in `is_program`: there the check of 255 instructions takes 1.16 times as long, with as many machine instructions.
    #[inline(never)]
    fn records_ok(&self) -> bool
        ensures { result ≡ records_ok self.now.bytes.now (path_total self.now.bytes.now) 0 }
    {
        if self.header.paths == 0 {
            return true;
        }
        if !self.root_ok() {
            return false;
        }
        // The place goes along with k: computed from it, the check takes 7 to 17 per cent more machine instructions.
        let mut at = self.record(1);
        for k in 1..self.header.paths {
            if !self.record_ok(k, at) {
                return false;
            }
            at += RECORD_SIZE;
        }
        true
    }

    // ---- instructions

    fn instructions_ok(&self) -> bool
        ensures { result ≡ instructions_ok self.now.bytes.now (code_count self.now.bytes.now) 0 0 }
    {
        // The place goes along with n, as with the records.
        let mut slot = HEADER_SIZE;
        let mut next = 0;
        for number in 0..self.header.code {
            let instruction = Instruction {
                image: *self,
                number,
                slot,
                opcode: known_half(self.bytes, slot),
                count: known_half(self.bytes, slot + COUNT_AT),
                next,
            };
            if !instruction.is_ok() {
                return false;
            }
            next += instruction.count;
            slot += SLOT_SIZE;
        }
        next == self.header.entries
    }
}

// How many bytes the text of a step has; most steps are one of the first ten arguments.
fn step_length(step: usize) -> usize
    requires { step < 4294967296 }
    ensures { (result ≡ length (step_text (step_of step))) × (result ≤ 8589934592) }
{
    match step {
        3..=12 => 13,
        _ => paths::step_length(step),
    }
}

// An instruction: where it begins, its opcode, the count of its list, and how many entries the lists before it have. The
// opcode is read with the zero after it.
#[derive(Clone, Copy)]
struct Instruction<'a> {
    image: Image<'a>,
    number: usize,
    slot: usize,
    opcode: usize,
    count: usize,
    next: usize,
    ghost is: { Slot image.bytes.now image.header number slot opcode count next },
}

impl Instruction<'_> {
    fn field(&self, offset: usize) -> usize
        requires { offset ≤ 20 }
        ensures { (result ≡ word_at self.now.image.bytes.now (self.now.slot + offset)) × (result < 4294967296) }
    {
        known_word(self.image.bytes, self.slot + offset)
    }

    // The destination and the path are there.
    fn placed_ok(&self) -> bool
        ensures { result ≡ placed_ok self.now.image.bytes.now self.now.number }
    {
        let path = self.field(PATH_AT);
        self.field(DESTINATION_AT) < self.image.header.registers
            && path < self.image.header.paths
            && self.image.path_length(path) <= 8192
    }

    // The fields a, b and c are below these limits; one that is unused is zero, so below 1.
    fn below(&self, a: usize, b: usize, c: usize) -> bool
        ensures { result ≡ fields_below self.now.image.bytes.now self.now.slot a b c }
    {
        self.field(A_AT) < a && self.field(B_AT) < b && self.field(C_AT) < c
    }

    // A jump goes forward, to the code's end at most.
    fn jump_ok(&self, a: usize) -> bool
        ensures { result ≡ (ltb self.now.number (word_at self.now.image.bytes.now (self.now.slot + 16)) && fields_below self.now.image.bytes.now self.now.slot a 1 (self.now.image.header.code + 1)) }
    {
        self.number < self.field(C_AT) && self.below(a, 1, self.image.header.code + 1)
    }

    // All registers of the list from entry `next` on are there.
    fn list_below(&self) -> bool
        requires { self.now.next + self.now.count ≤ self.now.image.header.entries }
        ensures { result ≡ all_below self.now.image.header.registers (entries_from self.now.image.bytes.now self.now.count self.now.next) }
    {
        let first = self.image.record(self.image.header.paths) + ENTRY_SIZE * self.next;
        (0..self.count).all(|i| {
            known_word(self.image.bytes, first + ENTRY_SIZE * i) < self.image.header.registers
        })
    }

    // Min and Max: the list begins where the last one ended, and has two entries at least. No other opcode has a count.
    fn list_ok(&self) -> bool
        requires { (0 < self.now.count) × (path_number self.now.image.bytes.now self.now.number < path_total self.now.image.bytes.now) }
        ensures { result ≡ operands_ok self.now.image.bytes.now self.now.number self.now.next }
    {
        MIN <= self.opcode
            && self.opcode <= MAX
            && self.field(B_AT) == 0
            && self.field(C_AT) == 0
            && self.field(A_AT) == self.next
            && 2 <= self.count
            && self.next + self.count <= self.image.header.entries
            && self.list_below()
    }

    // What the operation reads is there, and a jump goes forward.
    fn operands_ok(&self) -> bool
        requires { path_number self.now.image.bytes.now self.now.number < path_total self.now.image.bytes.now }
        ensures { result ≡ operands_ok self.now.image.bytes.now self.now.number self.now.next }
    {
        if self.count > 0 {
            return self.list_ok();
        }
        let registers = self.image.header.registers;
        match self.opcode {
            CONSTANT => self.field(C_AT) == 0,
            LOAD => self.below(self.image.header.inputs, 1, 1),
            BRANCH => self.jump_ok(registers),
            JUMP => self.jump_ok(1),
            // the operations of one register, of two and of three
            COPY | POSITIVE..=NOT | EXP..=CEIL => self.below(registers, 1, 1),
            ADD..=NE => self.below(registers, registers, 1),
            HILL..=DENSITY => self.below(registers, registers, registers),
            _ => false,
        }
    }

    #[tactic(auto, using(crate::proofs::Pass::placed_named), unfolding(crate::specs::Check::instruction_ok))]
    fn is_ok(&self) -> bool
        ensures { result ≡ instruction_ok self.now.image.bytes.now self.now.number self.now.next }
    {
        self.placed_ok() && self.operands_ok()
    }
}

// Whether the bytes are a program that may run.
#[tactic(auto, using(crate::proofs::Pass::valid_is))]
pub fn is_program(p: &[u8]) -> bool
    ensures { result ≡ valid (program_at p.now) }
{
    Image::new(p).is_some_and(|image| image.records_ok() && image.instructions_ok())
}

// The text of the path whose record is k, then zeros to the slice's end. Where the bytes are no program, or the slice is
// too short, what it holds after is free.
pub fn write_place(p: &[u8], k: usize, out: &mut [u8])
    ensures { (valid (program_at p.now) ≡ true) × (k < path_total p.now) × (length_at p.now k ≤ length out.old) → out.new ≡ placed (some (path_of p.now k)) out.old }
{
    let code = reader::word(p, CODE_AT);
    let records = reader::word(p, PATHS_AT);
    if records <= k {
        return;
    }
    paths::write_path(p, HEADER_SIZE + SLOT_SIZE * code, k, out);
}
