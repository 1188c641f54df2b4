use crate::stop::Stop;

/// What a word asks for. Its accumulators, address and options stay in the word.
#[derive(Clone, Copy, PartialEq, Eq, Debug)]
pub enum Operation {
    Jmp,
    Jsr,
    Isz,
    Dsz,
    Lda,
    Sta,
    InputOutput,
    TwoAccumulator,
    Adi,
    Sbi,
    Dad,
    Dsb,
    Ior,
    Xor,
    Anc,
    Xch,
    Sgt,
    Sge,
    Lsh,
    Dlsh,
    Hxl,
    Hxr,
    Dhxl,
    Dhxr,
    Lob,
    Lrb,
    Cob,
    Hlv,
    Iori,
    Xori,
    Andi,
    Addi,
    Lmp,
    Syc,
}

/// What a completed instruction comes to: the program goes on, or it has called the supervisor.
#[derive(Clone, Copy)]
pub enum Outcome {
    Next,
    Called,
}

/// What a step comes to: it is completed, or it is completed and ends the run, or it is not completed.
#[derive(Clone, Copy)]
pub enum Turn {
    Goes,
    Calls(Stop),
    Stops(Stop),
}

/// What a run made: its completed steps, and why it ended.
#[derive(Clone, Copy)]
pub struct Ran {
    pub steps: u16,
    pub stop: Stop,
}
