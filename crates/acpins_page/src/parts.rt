//! The parts of a page: tags and text.

ghost use Rattle.std.specs.Prelude.{◌≡◌, ◌++◌, map};
ghost use Rattle.std.specs.List.{flat_map};
ghost use Rattle.html_text.specs.Escape.{escaped};
ghost use Rattle.acpins_page.specs.Page.{attribute_text, part_text, opening_tag, closing_tag};
ghost use Rattle.acpins_page.specs.PartViews.{attribute_view, part_view, value_view};

use crate::markup::{AttributeName, Element, attribute_start, element_name};
use html_text::Html;
use text_buffer::Text;

/// The value of an attribute.
#[derive(Clone, Copy)]
pub(crate) enum Value<'a> {
    /// Words of the program.
    Words(&'a str),
    /// A text that was made.
    Text(&'a Text),
}

/// An attribute with its value.
#[derive(Clone, Copy)]
pub(crate) struct Attribute<'a> {
    /// Which attribute it is.
    pub name: AttributeName,
    /// Its value, which is escaped where it is written.
    pub value: Value<'a>,
}

/// A part of a page.
#[derive(Clone, Copy)]
pub(crate) enum Part<'a> {
    /// The tag that opens an element, with its attributes.
    Open(Element, &'a [Attribute<'a>]),
    /// Text, which is escaped where it is written.
    Text(&'a Text),
    /// The tag that closes an element.
    Close(Element),
    /// The end of a line.
    LineEnd,
}

/// An attribute whose value is words of the program.
pub(crate) fn with_words(name: AttributeName, words: &str) -> Attribute<'_> {
    Attribute {
        name,
        value: Value::Words(words),
    }
}

/// An attribute whose value is a text that was made.
pub(crate) fn with_text(name: AttributeName, text: &Text) -> Attribute<'_> {
    Attribute {
        name,
        value: Value::Text(text),
    }
}

fn put_value(html: &mut Html, value: Value<'_>)
    ensures { html.new ≡ html.old ++ escaped (value_view value.entry) }
{
    match value {
        Value::Words(words) => html.text(words.as_bytes()),
        Value::Text(text) => html.text_of(text),
    }
}

fn put_attribute(html: &mut Html, attribute: &Attribute<'_>)
    ensures { html.new ≡ html.old ++ attribute_text (attribute_view attribute.now) }
{
    html.markup(attribute_start(attribute.name));
    put_value(html, attribute.value);
    html.markup("\"")
}

fn put_attributes(html: &mut Html, attributes: &[Attribute<'_>])
    ensures { html.new
        ≡ html.old ++ flat_map (λ a. attribute_text (attribute_view a)) attributes.now }
{
    for attribute in attributes {
        put_attribute(html, attribute);
    }
}

// The tag that opens an element.
fn put_open(html: &mut Html, element: Element, attributes: &[Attribute<'_>])
    ensures { html.new
        ≡ html.old ++ part_text (opening_tag element (map attribute_view attributes.now)) }
{
    html.markup("<");
    html.markup(element_name(element));
    put_attributes(html, attributes);
    html.markup(">")
}

// The tag that closes an element.
fn put_close(html: &mut Html, element: Element)
    ensures { html.new ≡ html.old ++ part_text (closing_tag element) }
{
    html.markup("</");
    html.markup(element_name(element));
    html.markup(">")
}

/// Puts a part behind what is written.
pub(crate) fn put_part(html: &mut Html, part: Part<'_>)
    ensures { html.new ≡ html.old ++ part_text (part_view part.entry) }
{
    match part {
        Part::Open(element, attributes) => put_open(html, element, attributes),
        Part::Text(text) => html.text_of(text),
        Part::Close(element) => put_close(html, element),
        Part::LineEnd => html.markup("\n"),
    }
}
