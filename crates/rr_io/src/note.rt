// What is noted beside an answer.

/// Puts a line on standard error: the program's name, a colon and the text. What can't be written is left out.
pub fn put_note<R: Eprint>(rt: &R, program: &str, text: &str) {
    let _ = eprintln!(rt; "{program}: {text}");
}
