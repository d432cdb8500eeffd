//! Rows of two numbers, read in one pass over their bytes.

ghost use Rattle.std.specs.Prelude.{◌≡◌, ◌++◌, ◌∷◌, IfSome, codes};
ghost use Rattle.std.specs.Fmt.{decimal};
ghost use Rattle.certificate.specs.Texts.{Fits32, full_row};

// A row of two numbers at the front of a text.
#[derive(Clone, Copy)]
pub(crate) struct Row<'a> {
    pub(crate) c: u32,
    pub(crate) e: u32,
    // The bytes of the row, with its line feed.
    pub(crate) line: &'a [u8],
    // What is behind them.
    pub(crate) rest: &'a [u8],
}

// A number at the front of a text, and what is behind the byte that ends it.
#[derive(Clone, Copy)]
struct Front<'a> {
    number: u32,
    rest: &'a [u8],
}

// The row of two numbers at the front of a text, where both are below 4294967290. The few with a
// greater one are read as all other lines are.
pub(crate) fn row_ahead<'a>(text: &'a [u8]) -> Option<Row<'a>>
    ensures row { IfSome result (λ r. r.line.now ≡ full_row r.c r.e ++ codes "\n") }
    ensures split { IfSome result (λ r. text.now ≡ r.line.now ++ r.rest.now) }
    ensures small { IfSome result (λ r. Fits32 r.c × Fits32 r.e) }
{
    let c = number_ahead(text, b' ')?;
    let e = number_ahead(c.rest, b'\n')?;
    let line = &text[..text.len() - e.rest.len()];
    Some(Row {
        c: c.number,
        e: e.number,
        line,
        rest: e.rest,
    })
}

// The number below 4294967290 at the front of a text, where `end` is the byte behind its numeral.
fn number_ahead<'a>(text: &'a [u8], end: u8) -> Option<Front<'a>>
    ensures numeral { IfSome result (λ n. text.now ≡ decimal n.number ++ end ∷ n.rest.now) }
    ensures small { IfSome result (λ n. Fits32 n.number) }
{
    let mut number: u32 = 0;
    for at in 0..text.len() {
        let byte = text[at];
        if !byte.is_ascii_digit() {
            if byte != end || at == 0 || text[0] == b'0' && at != 1 {
                return None;
            }
            let rest = &text[at + 1..];
            return Some(Front { number, rest });
        }
        if number > 429_496_728 {
            return None;
        }
        number = number * 10 + u32::from(byte - b'0');
    }
    None
}
