// The start of a run from the arguments: ten words or sixteen, as crates/slip has them, and the budget.
use crate::args::{Arguments, get};
use crate::say::{Complained, Quoted, complain};
use pails::args::words_given;
use pails::word::take;
use slip::number::decimal;
use slip::places::digits;
use std::env::Env;

// The words, in the order in which they are typed.
const NAMES: [&str; 16] = [
    "A", "X", "Y", "S", "D", "PC", "PBR", "DBR", "P", "E", "HELD", "OPCODE", "CYCLE", "ADDRESS",
    "DATA", "BANK",
];

// What is shown of an argument that has no room.
const TOO_LONG: &[u8] = b"more than 4,096 characters";

// What word k has to be.
fn form(k: usize) -> &'static str {
    match digits(k) {
        1 => "0 or 1",
        2 => "1 or 2 hex digits",
        _ => "1 to 4 hex digits",
    }
}

fn refuse_word(err: &impl Print, k: usize, name: &str, text: &[u8]) -> Complained {
    let form = form(k);
    complain(
        err,
        format_args!("{name}: {} isn't {form} (refusal 4)", Quoted(text)),
    )
}

// Word k of the start, laid into the packed record.
fn take_arg<R: Env, E: Print>(
    args: &Arguments<R, E>,
    k: usize,
    name: &str,
    arg: usize,
    rec: &mut [u8; 32],
) -> Result<(), Complained> {
    let mut room = [0u8; 4096];
    let Ok(text) = get(args.rt, arg, &mut room) else {
        return Err(refuse_word(args.err, k, name, TOO_LONG));
    };
    take(k, text, rec).ok_or_else(|| refuse_word(args.err, k, name, text))
}

// The packed record of the first `words` words, from place `first` on.
pub fn read<R: Env, E: Print>(
    args: &Arguments<R, E>,
    words: usize,
    first: usize,
    rec: &mut [u8; 32],
) -> Result<(), Complained> {
    rec[0] = 1;
    for (k, name) in NAMES.iter().enumerate().take(words) {
        let arg = args.place(first.wrapping_add(k));
        take_arg(args, k, name, arg, rec)?;
    }
    Ok(())
}

fn refuse_budget(err: &impl Print, text: &[u8]) -> Complained {
    complain(
        err,
        format_args!(
            "BUDGET: {} isn't a decimal number of 1 to 10 digits, at most 1,000,000 (refusal 2)",
            Quoted(text)
        ),
    )
}

fn budget_of<R: Env, E: Print>(args: &Arguments<R, E>, arg: usize) -> Result<u32, Complained> {
    let mut room = [0u8; 4096];
    let Ok(text) = get(args.rt, arg, &mut room) else {
        return Err(refuse_budget(args.err, TOO_LONG));
    };
    decimal(text).ok_or_else(|| refuse_budget(args.err, text))
}

// The budget of `IMAGE WORDS BUDGET`, and the packed record of the words.
pub fn asked<R: Env, E: Print>(
    args: &Arguments<R, E>,
    rec: &mut [u8; 32],
) -> Result<u32, Complained> {
    let Some(words) = words_given(args.count, args.out) else {
        return Err(complain(
            args.err,
            "usage: run|trace IMAGE A X Y S D PC PBR DBR P E [HELD OPCODE CYCLE ADDRESS DATA BANK] BUDGET [--out FILE]",
        ));
    };
    read(args, words, 2, rec)?;
    budget_of(args, args.place(words.wrapping_add(2)))
}
