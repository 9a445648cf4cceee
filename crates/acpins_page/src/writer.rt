//! The page that is written: tags and text alone, so that data stands in it only escaped.

ghost use Rattle.std.specs.Prelude.{◌≡◌, IfOk};
ghost use Rattle.acpins_page.specs.Page.{IsPage};
ghost use Rattle.acpins_page.specs.declared.style.TheConstants as constants;

use crate::markup::{AttributeName, Element};
use crate::parts::{Attribute, Part, put_part, with_words};
use crate::style::HEAD;
use acpi_phrases::NO_BREAK;
use html_text::Html;
use std::alloc::{AllocError, Global};
use text_buffer::Text;

/// A page that is written.
#[derive(Drop)]
pub(crate) struct Page {
    html: Html,
    /// The text behind the last tag, which the next tag puts into the page, escaped.
    pub(crate) text: Text,
    ghost parts: { IsPage constants.HEAD.now html },
}

impl Page {
    /// The head of a page.
    #[tactic(auto, using(crate::proofs::PageParts::no_parts))]
    pub(crate) fn new(alloc: Global) -> Page {
        let mut html = Html::new(alloc);
        html.markup(HEAD);
        Page {
            html,
            text: Text::new(alloc),
        }
    }

    // Puts the text behind the last tag into the page.
    #[tactic(auto, using(crate::proofs::PageParts::one_part_more))]
    fn end_text(&mut self) {
        put_part(&mut self.html, Part::Text(&self.text));
        self.text.clear()
    }

    // Puts a part behind the text.
    #[tactic(auto, using(crate::proofs::PageParts::one_part_more))]
    fn put(&mut self, part: Part<'_>) {
        self.end_text();
        put_part(&mut self.html, part)
    }

    /// The bytes; an error where a growth of memory was refused.
    pub(crate) fn into_bytes(self) -> Result<Vec<u8>, AllocError>
        ensures { IfOk result (λ bytes. IsPage HEAD.now bytes.items) }
    {
        let mut page = self;
        page.end_text();
        page.html.into_bytes()
    }

    /// The allocator of the page.
    pub(crate) fn alloc(&self) -> Global {
        self.text.alloc()
    }
}

// ---- elements with their text

impl Page {
    /// Opens an element.
    pub(crate) fn open(&mut self, element: Element, attributes: &[Attribute<'_>]) {
        self.put(Part::Open(element, attributes))
    }

    /// Closes an element.
    pub(crate) fn close(&mut self, element: Element) {
        self.put(Part::Close(element))
    }

    /// Ends a line.
    pub(crate) fn end_line(&mut self) {
        self.put(Part::LineEnd)
    }

    /// Opens an element of a class.
    pub(crate) fn open_class(&mut self, element: Element, class: &str) {
        self.open(element, &[with_words(AttributeName::Class, class)])
    }

    /// Closes an element, and ends the line.
    pub(crate) fn close_line(&mut self, element: Element) {
        self.close(element);
        self.end_line()
    }

    /// Puts words of rows as text: a blank at which no line is broken is a blank.
    pub(crate) fn put_words(&mut self, words: &[u8]) {
        for byte in words {
            self.text
                .put_one(if *byte == NO_BREAK { b' ' } else { *byte });
        }
    }

    /// Puts an element with words in it.
    pub(crate) fn element(&mut self, element: Element, words: &str) {
        self.open(element, &[]);
        self.text.put(words);
        self.close(element)
    }

    /// Opens a section with an `id` and a heading, and says what its abbreviations mean.
    pub(crate) fn open_section(&mut self, id: &str, heading: &str, legend: &[u8]) {
        self.open(Element::Section, &[with_words(AttributeName::Id, id)]);
        self.element(Element::H2, heading);
        if !legend.is_empty() {
            self.open_class(Element::P, "lg");
            self.put_words(legend);
            self.close(Element::P);
        }
        self.end_line()
    }
}
