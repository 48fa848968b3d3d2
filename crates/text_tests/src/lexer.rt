// Where the commands of small files stand, counted by hand.
use gerber_lexer::{LexError, Span, next_command};
use std::process::Abort;

// The commands one after another, from the first byte on, and what is found behind them.
fn finds(rt: &impl Abort, bytes: &[u8], commands: &[Span], last: Result<Option<Span>, LexError>) {
    let mut at = 0;
    let mut inside = false;
    for command in commands {
        match next_command(bytes, at, inside) {
            Ok(Some(span)) => {
                assert_eq!(rt; span, *command);
                at = span.next;
                inside = span.inside;
            }
            _ => panic!(rt; "a command is missing"),
        }
    }
    assert_eq!(rt; next_command(bytes, at, inside), last);
}

// A command of a block.
fn extended(from: usize, to: usize, inside: bool, next: usize) -> Span {
    Span {
        from,
        to,
        extended: true,
        inside,
        next,
    }
}

// A command outside blocks.
fn word(from: usize, to: usize, next: usize) -> Span {
    Span {
        from,
        to,
        extended: false,
        inside: false,
        next,
    }
}

#[test]
fn files_that_end_too_early(rt: HostRuntime) {
    let settings = [extended(1, 11, false, 13), extended(14, 18, false, 20)];
    finds(&rt, b"%FSLAX46Y46*%%MOMM*%", &settings, Ok(None));

    let region = [
        extended(1, 11, false, 13),
        extended(14, 18, false, 20),
        word(20, 23, 24),
        word(24, 27, 28),
    ];
    finds(&rt, b"%FSLAX46Y46*%%MOMM*%G36*M02*", &region, Ok(None));

    let unclosed = [extended(1, 11, false, 13)];
    finds(
        &rt,
        b"%FSLAX46Y46*%%MOMM*",
        &unclosed,
        Err(LexError { at: 13 }),
    );
}

#[test]
fn commands_of_a_block(rt: HostRuntime) {
    let two = [
        extended(3, 5, true, 6),
        extended(7, 8, false, 11),
        word(12, 14, 15),
    ];
    finds(&rt, b"\r\n%TF*\nM*\n%\nD1*\n", &two, Ok(None));

    // Line breaks between the commands, and before the percent sign.
    let three = [
        extended(1, 4, true, 5),
        extended(7, 10, true, 11),
        extended(11, 14, false, 18),
    ];
    finds(&rt, b"%LPD*\r\nLPC*LMN*\n\n%", &three, Ok(None));

    // A macro takes the rest of its block, also behind another command, and where a line break stands in its AM.
    let macros = [
        extended(1, 4, true, 5),
        extended(6, 21, false, 24),
        word(24, 27, 28),
    ];
    finds(&rt, b"%LPD*\nA\nMA*\n1,1,1,0,0*\n%D10*", &macros, Ok(None));
}

#[test]
fn commands_that_are_not_closed(rt: HostRuntime) {
    finds(&rt, b"\nD10", &[], Err(LexError { at: 1 }));
    finds(&rt, b"%TF*M%", &[], Err(LexError { at: 0 }));
    finds(&rt, b"%%", &[], Err(LexError { at: 0 }));
    finds(&rt, b"D10* ", &[word(0, 3, 4)], Err(LexError { at: 4 }));
}
