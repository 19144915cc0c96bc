// Printing: bytes as a person reads them, and answers.
use command::Answer;

// A text as it is.
pub fn say(rt: &impl Print, text: &[u8]) {
    let _ = rt.write_all(text);
}

// A number.
pub fn say_number(rt: &impl Print, n: usize) {
    let _ = print!(rt; "{n}");
}

// A byte: as it is, or by its number in hex where it does not print.
fn show_byte(rt: &impl Print, b: u8) {
    if 31 < b {
        if b < 127 {
            say(rt, &[b]);
            return;
        }
    }
    say(rt, b"<");
    let _ = print!(rt; "{b:02x}");
    say(rt, b">");
}

// Bytes between brackets.
pub fn show(rt: &impl Print, bytes: &[u8]) {
    say(rt, b"[");
    for i in 0..bytes.len() {
        show_byte(rt, bytes[i]);
    }
    say(rt, b"]\n");
}

// An answer: the bytes that it reports, or its number.
pub fn show_answer(rt: &impl Print, answer: Answer) {
    match answer {
        Ok(len) => {
            say(rt, b"accepted, ");
            say_number(rt, len);
            say(rt, b" bytes\n");
        }
        Err(why) => {
            say(rt, b"refused by ");
            say_number(rt, usize::from(why));
            say(rt, b"\n");
        }
    }
}
