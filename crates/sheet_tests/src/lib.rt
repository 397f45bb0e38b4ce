// Tests of the sheet's text layer: every doubtful shape of a line, in one table, and lines written and read back.
#![tactic(auto)]

use sheet::{Fault, Reader};

// The field of the fault that a question to a reader tells of the first line, or 0 where the line is good.
pub(crate) fn field_at_fault<F: Fn(&mut Reader) -> Option<Fault>>(ask: &F, bytes: &[u8]) -> usize
    requires { F.IsAlwaysCallable ask.now }
{
    let mut reader = Reader::new(bytes);
    match ask(&mut reader) {
        Some(fault) => fault.field().unwrap_or(0),
        None => 0,
    }
}

#[cfg(test)]
mod tests;
