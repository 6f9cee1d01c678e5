// Text to trees, and trees to text.
ghost use Rattle.std.specs.Prelude.{◌<◌, ◌^◌, length};

use mbe_text::dialect::Dialect;
use mbe_text::lexer::{LexError, lex, lex_with_table};
use mbe_text::scanner::{LexFault, Scanner};
use mbe_text::symbol_table::SymbolTable;
use mbe_text::tree_dump::print_tree;
use mbe_tt::tt::TopSubtree;
use std::alloc::Global;

/// The lines that print a text's trees. The text is file 7.
pub fn lines_of(alloc: Global, text: &str) -> anyhow::Result<String>
    requires { length text.now < 2 ^ 32 }
{
    let tree = lex(alloc, text, 7)?;
    let mut out = Vec::new(alloc);
    print_tree(&tree, &mut out)?;
    Ok(String::from_utf8(out)?)
}

/// The byte at which a text stops being tokens, if there is one.
pub fn fault_of(alloc: Global, text: &str) -> Option<u32>
    requires { length text.now < 2 ^ 32 }
{
    match lex(alloc, text, 7) {
        Err(LexError::Fault(fault)) => Some(fault.offset),
        Ok(_) | Err(LexError::OutOfMemory) => None,
    }
}

/// The trees of file 0 and of file 1, in which each name is kept once.
pub fn trees_of(
    alloc: Global,
    first: &str,
    second: &str,
) -> Result<(TopSubtree, TopSubtree), LexError>
    requires first { length first.now < 2 ^ 32 }
    requires second { length second.now < 2 ^ 32 }
{
    let mut table = SymbolTable::new(alloc);
    let one = lex_with_table(&mut table, first, 0)?;
    let two = lex_with_table(&mut table, second, 1)?;
    Ok((one, two))
}

/// Returns the byte at which the second token of a text ends. If the text has fewer tokens, this is
/// the end of the text.
pub fn end_of_second(text: &str) -> Result<u32, LexFault>
    requires { length text.now < 2 ^ 32 }
{
    let mut scanner = Scanner::new(Dialect::Sample, text, 7);
    scanner.token()?;
    scanner.token()?;
    Ok(scanner.offset())
}

pub mod tests {
    use super::{end_of_second, fault_of, lines_of, trees_of};
    use mbe_text::fault_kind;
    use mbe_text::scanner::LexFault;
    use mbe_text::symbol_table::SymbolTable;
    use mbe_tt::symbol::Symbol;
    use std::alloc::Global;

    // Each line has the token's span: file 7, and its bytes.
    const LINES: &str = "SUBTREE $$ 7@0..10 7@0..10
  IDENT   a 7@0..1
  PUNCH   + [joint] 7@2..3
  PUNCH   = [alone] 7@3..4
  SUBTREE () 7@5..6 7@9..10
    LITERAL Integer 1u8 7@6..9
";

    pub fn is_printed(alloc: Global) -> bool {
        match lines_of(alloc, "a += (1u8)") {
            Ok(lines) => lines.as_str() == LINES,
            Err(_) => false,
        }
    }

    pub fn are_counted(alloc: Global) -> bool {
        let fault = LexFault {
            offset: 2,
            fault_kind: fault_kind::LexFaultKind::Start,
        };
        fault_of(alloc, "a += (1u8]") == Some(9)
            && fault_of(alloc, "a += (1u8)").is_none()
            && end_of_second("a += (1u8)") == Ok(3)
            && end_of_second("a é §") == Ok(4)
            && end_of_second("a §") == Err(fault)
    }

    // The trees differ, and a name of a table is the symbol of its text.
    pub fn are_kept(alloc: Global) -> Option<bool> {
        let (one, two) = trees_of(alloc, "a + a", "a + b").ok()?;
        let mut table = SymbolTable::new(alloc);
        let name = table.intern("a").ok()?;
        Some(one != two && name == Symbol::intern(alloc, "a").ok()?)
    }
}
