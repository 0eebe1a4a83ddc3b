use crate::{
    Command, DecodeOptions, Guessing, MakeOptions, PredictorKind, ReplayOptions, WindowOptions,
    WordsError, command_of,
};
use std::alloc::Global;
use std::test::Fail;
use window_plan::PlanKind;

/// The windows where no option is given.
const SLIDING: WindowOptions = WindowOptions {
    kind: PlanKind::Sliding,
    commit: None,
    buffer: None,
};

/// The guesses where no option is given.
const NEAR: Guessing = Guessing {
    predictor: PredictorKind::Near,
    retries: 1,
};

/// Words that aren't accepted, a line of them each.
const REFUSED: [&str; 37] = [
    "",
    "undo",
    "Decode",
    "decode more",
    "decode --bogus",
    "decode --help",
    "decode --version",
    "decode -h",
    "decode --plan",
    "decode --plan skew",
    "decode --commit 0",
    "decode --commit 4097",
    "decode --buffer 4097",
    "decode --buffer -1",
    "decode --buffer +1",
    "decode --buffer=",
    "decode --buffer 000000000000000000001",
    "decode --workers 0",
    "decode --workers 9",
    "decode --retries 9",
    "decode --predict far",
    "decode --predict seed:",
    "decode --predict seed:18446744073709551616",
    "decode --trace=true",
    "decode --trace --trace",
    "decode --certify=true",
    "decode --certify yes",
    "decode --certify --certify",
    "replay --certify",
    "plan --certify",
    "make --distance 5 --patches 4 --slots 200 --seed 7 --certify",
    "decode --commit 4 --commit 4",
    "replay --workers 1",
    "plan --retries 1",
    "make --distance 5 --patches 4 --slots 200",
    "make --distance 4 --patches 1 --slots 9 --seed 0",
    "make --distance 5 --patches 4 --slots 1 --seed 7",
];

#[test]
fn decode_has_defaults(rt: HostRuntime) -> Result<(), Fail> {
    let plain = Command::Decode(DecodeOptions {
        windows: SLIDING,
        guessing: NEAR,
        workers: 4,
        trace: false,
        certify: false,
    });
    expect(rt.alloc(), "decode", plain)
}

#[test]
fn decode_takes_options(rt: HostRuntime) -> Result<(), Fail> {
    let line = "decode --trace --retries 0 --predict seed:18446744073709551615 --workers=8 \
                --buffer 0 --certify --commit=4096 --plan parallel";
    let full = Command::Decode(DecodeOptions {
        windows: WindowOptions {
            kind: PlanKind::Parallel,
            commit: Some(4_096),
            buffer: Some(0),
        },
        guessing: Guessing {
            predictor: PredictorKind::Seeded(u64::MAX),
            retries: 0,
        },
        workers: 8,
        trace: true,
        certify: true,
    });
    expect(rt.alloc(), line, full)
}

#[test]
fn replay_takes_guesses(rt: HostRuntime) -> Result<(), Fail> {
    let zero = Command::Replay(ReplayOptions {
        windows: SLIDING,
        guessing: Guessing {
            predictor: PredictorKind::Zero,
            retries: 8,
        },
    });
    expect(rt.alloc(), "replay --predict zero --retries 008", zero)
}

#[test]
fn plan_takes_windows(rt: HostRuntime) -> Result<(), Fail> {
    let line = "plan --plan sliding --buffer 00000000000000004096";
    let wide = WindowOptions {
        buffer: Some(4_096),
        ..SLIDING
    };
    expect(rt.alloc(), line, Command::Plan(wide))
}

#[test]
fn make_takes_numbers(rt: HostRuntime) -> Result<(), Fail> {
    let line = "make --seed 7 --slots 2 --patches 64 --distance 11";
    let made = Command::Make(MakeOptions {
        distance: 11,
        patches: 64,
        slots: 2,
        seed: 7,
    });
    expect(rt.alloc(), line, made)
}

#[test]
fn other_words_are_refused(rt: HostRuntime) -> Result<(), Fail> {
    for line in REFUSED.as_slice() {
        if !is_refused(rt.alloc(), line) {
            return Err("accepted")?;
        }
    }
    Ok(())
}

/// Whether the words of a line give this command.
fn expect(alloc: Global, line: &str, wanted: Command) -> Result<(), Fail> {
    match given(alloc, line) {
        Ok(command) if command == wanted => Ok(()),
        _ => Err("another command, or none")?,
    }
}

/// Whether the words of a line aren't accepted.
fn is_refused(alloc: Global, line: &str) -> bool {
    matches!(given(alloc, line), Err(WordsError::Usage))
}

/// What the words of a line give.
fn given(alloc: Global, line: &str) -> Result<Command, WordsError> {
    let words: Result<Vec<&str>, _> = line.split(' ').collect(alloc);
    match words {
        Ok(words) => command_of(alloc, &words),
        Err(_) => Err(WordsError::Memory),
    }
}
