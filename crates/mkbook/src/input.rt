// The lines of an input.
ghost use Rattle.std.specs.Prelude.{◌≡◌, IfOk};
ghost use Rattle.book.specs.Makings.{contents};
ghost use Rattle.mkbook.specs.Lines.{without_return, lines_of};

use std::alloc::{AllocError, Global};

/// A line without the carriage return that ends it.
fn trimmed(line: &[u8]) -> &[u8]
    ensures { result.now ≡ without_return line.now }
{
    line.strip_suffix(b"\r").unwrap_or(line)
}

/// The lines of an input. An empty last line is none.
pub(crate) fn lines<'a>(heap: Global, input: &'a [u8]) -> Result<Vec<&'a [u8]>, AllocError>
    ensures { IfOk result (λ v. contents v.items ≡ lines_of input.now) }
{
    let mut lines = Vec::new(heap);
    let mut rest = input;
    while let Some(end) = rest.iter().position(|byte| *byte == b'\n') {
        lines.push(trimmed(&rest[..end]))?;
        rest = &rest[end + 1..];
    }
    let last = trimmed(rest);
    if !last.is_empty() {
        lines.push(last)?;
    }
    Ok(lines)
}
