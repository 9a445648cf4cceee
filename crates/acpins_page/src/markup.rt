//! The elements and attributes of which the page is made (HTML, 4).

ghost use Rattle.std.specs.Prelude.{◌≡◌};
ghost use Rattle.acpins_page.specs.Page.{attribute_start, element_name};

/// An element.
#[derive(Debug, Clone, Copy, PartialEq, Eq)]
pub(crate) enum Element {
    /// A link.
    A,
    /// The body of the page.
    Body,
    /// Code.
    Code,
    /// What a word of a list stands for.
    Dd,
    /// What is unfolded by a click.
    Details,
    /// A block.
    Div,
    /// A list of words and what they stand for.
    Dl,
    /// A word of a list.
    Dt,
    /// What ends the page.
    Footer,
    /// The heading of the page.
    H1,
    /// The heading of a section.
    H2,
    /// What begins the page.
    Header,
    /// The page.
    Html,
    /// An item of a list.
    Li,
    /// What the page is for.
    Main,
    /// The contents of the page.
    Nav,
    /// A list in an order.
    Ol,
    /// A paragraph.
    P,
    /// Lines as they stand.
    Pre,
    /// A section.
    Section,
    /// Small words.
    Small,
    /// A part of a line.
    Span,
    /// What stands for details that are folded.
    Summary,
    /// A table.
    Table,
    /// A cell of a table.
    Td,
    /// A heading in a table.
    Th,
    /// The title of the page.
    Title,
    /// A row of a table.
    Tr,
    /// A list.
    Ul,
}

/// The name of an attribute.
#[derive(Debug, Clone, Copy, PartialEq, Eq)]
pub(crate) enum AttributeName {
    /// By which an element gets its looks.
    Class,
    /// The `id` of another element of the page, to which a link leads.
    Href,
    /// By which links lead to it.
    Id,
    /// That details are unfolded.
    Open,
}

/// The name of an element as it is written.
pub(crate) fn element_name(element: Element) -> &'static str
    ensures { result.now ≡ element_name element }
{
    match element {
        Element::A => "a",
        Element::Body => "body",
        Element::Code => "code",
        Element::Dd => "dd",
        Element::Details => "details",
        Element::Div => "div",
        Element::Dl => "dl",
        Element::Dt => "dt",
        Element::Footer => "footer",
        Element::H1 => "h1",
        Element::H2 => "h2",
        Element::Header => "header",
        Element::Html => "html",
        Element::Li => "li",
        Element::Main => "main",
        Element::Nav => "nav",
        Element::Ol => "ol",
        Element::P => "p",
        Element::Pre => "pre",
        Element::Section => "section",
        Element::Small => "small",
        Element::Span => "span",
        Element::Summary => "summary",
        Element::Table => "table",
        Element::Td => "td",
        Element::Th => "th",
        Element::Title => "title",
        Element::Tr => "tr",
        Element::Ul => "ul",
    }
}

/// What stands before the value of an attribute; a link leads to an element of the page, by the `#`.
pub(crate) fn attribute_start(name: AttributeName) -> &'static str
    ensures { result.now ≡ attribute_start name }
{
    match name {
        AttributeName::Class => " class=\"",
        AttributeName::Href => " href=\"#",
        AttributeName::Id => " id=\"",
        AttributeName::Open => " open=\"",
    }
}
