//! The bodies of methods, line by line.

use crate::markup::Element;
use crate::writer::Page;
use acpi_phrases::put_expression;
use acpi_text::put_term;
use acpi_tree::Term;
use std::alloc::AllocError;
use text_buffer::Text;

/// How far statements in others stand in.
const INDENT: &str = "  ";

// How many bytes the word has that begins a statement, where it is none that tables declare.
fn keyword_length(words: &[u8]) -> usize {
    let count = words
        .iter()
        .take_while(|b| b.is_ascii_alphabetic())
        .count()
        .min(words.len());
    match &words[..count] {
        b"If"
        | b"Else"
        | b"While"
        | b"Return"
        | b"Break"
        | b"Continue"
        | b"Notify"
        | b"Name"
        | b"OperationRegion"
        | b"Field"
        | b"IndexField"
        | b"BankField"
        | b"Acquire"
        | b"Release"
        | b"Sleep"
        | b"Stall"
        | b"CreateDWordField"
        | b"CreateWordField"
        | b"CreateByteField"
        | b"CreateQWordField"
        | b"CreateBitField"
        | b"CreateField" => count,
        _ => 0,
    }
}

// Puts a line of words; one that is a statement is counted.
fn put_line(page: &mut Page, depth: usize, words: &[u8], is_counted: bool) {
    page.open_class(Element::Code, if is_counted { "l" } else { "e" });
    for _ in 0..depth.min(40) {
        page.text.put(INDENT);
    }
    let (keyword, rest) = words.split_at(keyword_length(words).min(words.len()));
    if !keyword.is_empty() {
        page.open_class(Element::Span, "kw");
        page.text.put_all(keyword);
        page.close(Element::Span);
    }
    page.text.put_all(rest);
    page.close(Element::Code)
}

// What is still to be put.
#[derive(Debug, Clone, Copy)]
enum Rest<'t> {
    Statement(&'t Term),
    Else(&'t [Term]),
    BlockEnd,
}

/// Statements that are put line by line.
#[derive(Drop)]
struct Statements<'t> {
    // What is still to be put, the next last, each with how many blocks are around it.
    open: Vec<(Rest<'t>, usize)>,
}

impl<'t> Statements<'t> {
    fn push_all(&mut self, statements: &'t [Term], depth: usize) -> Result<(), AllocError> {
        for statement in statements.iter().rev() {
            self.open.push((Rest::Statement(statement), depth))?;
        }
        Ok(())
    }

    // Puts what begins a block; its statements are to be put next.
    fn put_block(
        &mut self,
        page: &mut Page,
        head: &[u8],
        statements: &'t [Term],
        depth: usize,
        is_counted: bool,
    ) -> Result<(), AllocError> {
        let mut words = Text::new(page.alloc());
        words.put_all(head);
        words.put(" {");
        put_line(page, depth, words.bytes()?, is_counted);
        self.open.push((Rest::BlockEnd, depth))?;
        self.push_all(statements, depth.saturating_add(1))
    }

    fn put_statement(
        &mut self,
        page: &mut Page,
        statement: &'t Term,
        depth: usize,
    ) -> Result<(), AllocError> {
        let mut words = Text::new(page.alloc());
        match statement {
            Term::If(_, then, otherwise) => {
                put_expression(&mut words, statement)?;
                if let Some(statements) = otherwise {
                    self.open.push((Rest::Else(statements), depth))?;
                }
                self.put_block(page, words.bytes()?, then, depth, true)
            }
            Term::While(_, statements) => {
                put_expression(&mut words, statement)?;
                self.put_block(page, words.bytes()?, statements, depth, true)
            }
            Term::Declare(_) => {
                put_term(&mut words, statement);
                put_line(page, depth, words.bytes()?, true);
                Ok(())
            }
            _ => {
                put_expression(&mut words, statement)?;
                put_line(page, depth, words.bytes()?, true);
                Ok(())
            }
        }
    }
}

/// Puts statements, each on a line.
pub(crate) fn put_statements(page: &mut Page, statements: &[Term]) -> Result<(), AllocError> {
    let mut rest = Statements {
        open: Vec::new(page.alloc()),
    };
    rest.push_all(statements, 0)?;
    for _ in 0..u64::MAX {
        let Some(next) = rest.open.pop() else {
            break;
        };
        match next.0 {
            Rest::Statement(statement) => rest.put_statement(page, statement, next.1)?,
            Rest::Else(statements) => rest.put_block(page, b"Else", statements, next.1, false)?,
            Rest::BlockEnd => put_line(page, next.1, b"}", false),
        }
    }
    Ok(())
}
