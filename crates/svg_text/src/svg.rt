//! The text of shapes: an SVG. Each `Err` says that memory was refused. The laws are the contracts of functions with an
//! empty body.

ghost use Rattle.std.specs.Prelude.{◌≡◌, ◌++◌, ℕ, List, IfOk, OnOk, codes, true};
ghost use Rattle.std.specs.List.{AllByRecursion, flat_map};
ghost use Rattle.svg_text.specs.declared.shape.Drawing.{Drawing};
ghost use Rattle.svg_text.specs.Xml.{escaped_byte, escaped, node_text, is_well_named, unescaped, IsNoMarkup};
ghost use Rattle.svg_text.specs.Svg.{shape_text, svg_node, svg_text};

use crate::shape::{Drawing, Shape, Spot};
use std::alloc::{AllocError, Global};
use std::io;
use std::io::Write;

/// Adds a text with each `<`, `>`, `&` and quote escaped. An `Err` says that memory was refused.
pub fn push_escaped(svg: &mut Vec<u8>, text: &[u8]) -> Result<(), AllocError>
    ensures { OnOk result (svg.new.items ≡ svg.old.items ++ escaped text.now) }
{
    for byte in text {
        push_escaped_byte(svg, *byte)?;
    }
    Ok(())
}

/// Adds a byte of a text, escaped.
fn push_escaped_byte(svg: &mut Vec<u8>, byte: u8) -> Result<(), AllocError>
    ensures { OnOk result (svg.new.items ≡ svg.old.items ++ escaped_byte byte) }
{
    match byte {
        b'<' => push_words(svg, "&lt;"),
        b'>' => push_words(svg, "&gt;"),
        b'&' => push_words(svg, "&amp;"),
        b'"' => push_words(svg, "&quot;"),
        b'\'' => push_words(svg, "&apos;"),
        plain => Ok(svg.push(plain)?),
    }
}

/// Adds words as they stand.
fn push_words(svg: &mut Vec<u8>, words: &str) -> Result<(), AllocError>
    ensures { OnOk result (svg.new.items ≡ svg.old.items ++ words.now) }
{
    svg.extend_from_slice(words.as_bytes())
}

/// Adds the text of a shape, and the end of its line.
fn push_shape(svg: &mut Vec<u8>, shape: &Shape) -> io::Result<()>
    ensures { OnOk result (svg.new.items ≡ svg.old.items ++ shape_text shape.now) }
{
    match shape {
        Shape::Rect(Spot { x, y }, width, height, paint) => {
            write!(
                svg,
                "<rect x=\"{x}\" y=\"{y}\" width=\"{width}\" height=\"{height}\"{paint}/>\n"
            )
        }
        Shape::Titled(Spot { x, y }, width, height, paint, title) => {
            write!(
                svg,
                "<rect x=\"{x}\" y=\"{y}\" width=\"{width}\" height=\"{height}\"{paint}><title>"
            )?;
            push_escaped(svg, title)?;
            write!(svg, "</title></rect>\n")
        }
        Shape::Line(Spot { x, y }, to, paint) => {
            let Spot { x: x2, y: y2 } = to;
            write!(
                svg,
                "<line x1=\"{x}\" y1=\"{y}\" x2=\"{x2}\" y2=\"{y2}\"{paint}/>\n"
            )
        }
        Shape::Dot(Spot { x, y }) => {
            write!(
                svg,
                "<circle cx=\"{x}\" cy=\"{y}\" r=\"6\" fill=\"#000000\" stroke=\"#ffffff\"/>\n"
            )
        }
        Shape::Tip(at, one, other) => {
            write!(
                svg,
                "<polygon points=\"{},{} {},{} {},{}\" fill=\"#000000\"/>\n",
                at.x, at.y, one.x, one.y, other.x, other.y
            )
        }
        Shape::Text(Spot { x, y }, anchor, paint, text) => {
            write!(
                svg,
                "<text x=\"{x}\" y=\"{y}\" text-anchor=\"{anchor}\"{paint}>"
            )?;
            push_escaped(svg, text)?;
            write!(svg, "</text>\n")
        }
        Shape::View(Spot { x, y }, width, height, left) => {
            write!(
                svg,
                "<svg x=\"{x}\" y=\"{y}\" width=\"{width}\" height=\"{height}\""
            )?;
            write!(
                svg,
                " viewBox=\"{left} 0 {width} {height}\"><use href=\"#strip\"/></svg>\n"
            )
        }
    }
}

/// Adds the texts of shapes.
fn push_shapes(svg: &mut Vec<u8>, shapes: &[Shape]) -> io::Result<()>
    ensures { OnOk result (svg.new.items ≡ svg.old.items ++ flat_map shape_text shapes.now) }
{
    for shape in shapes {
        push_shape(svg, shape)?;
    }
    Ok(())
}

/// Adds the text of a picture.
fn push_svg(svg: &mut Vec<u8>, drawing: &Drawing) -> io::Result<()>
    ensures { OnOk result (svg.new.items ≡ svg.old.items ++ svg_text drawing.now) }
{
    let (width, height) = (drawing.width, drawing.height);
    write!(
        svg,
        "<svg xmlns=\"http://www.w3.org/2000/svg\" viewBox=\"0 0 {width} {height}\" \
        width=\"{width}\" height=\"{height}\""
    )?;
    push_words(
        svg,
        " role=\"img\" aria-labelledby=\"title description\" font-family=\"monospace\" font-size=\"13\">\n\
        <title id=\"title\">",
    )?;
    push_escaped(svg, &drawing.title)?;
    push_words(svg, "</title>\n<desc id=\"description\">")?;
    push_escaped(svg, &drawing.description)?;
    write!(
        svg,
        "</desc>\n<rect width=\"{width}\" height=\"{height}\" fill=\"#ffffff\"/>\n<defs>\n<g id=\"strip\">\n"
    )?;
    push_shapes(svg, &drawing.strip)?;
    push_words(svg, "</g>\n</defs>\n")?;
    push_shapes(svg, &drawing.shapes)?;
    write!(svg, "</svg>\n")
}

/// The text of a picture. An `Err` says that memory was refused.
pub fn svg_of(alloc: Global, drawing: &Drawing) -> Result<Vec<u8>, AllocError>
    ensures { IfOk result (λ svg. svg.items ≡ svg_text drawing.now) }
{
    let mut svg = Vec::new(alloc);
    push_svg(&mut svg, drawing).map_err(|_| AllocError)?;
    Ok(svg)
}

/// The text of a picture is that of a tree of XML, with a line's end after it. In the text of a
/// tree each label and each attribute's value is escaped. Each element and each attribute of the
/// tree has a name, and no element has two attributes of one name. Labels are to have only bytes
/// from 32 to 126: XML knows no byte below 32 but the tab and the ends of lines.
pub fn text_is_of_a_tree()
    ensures text { (picture : Drawing) → svg_text picture ≡ node_text (svg_node picture) ++ codes "\n" }
    ensures names { (picture : Drawing) → is_well_named (svg_node picture) ≡ true }
{}

/// What is escaped has no `<`, no `>` and no quote, so it ends neither its element nor its
/// attribute; and it can be read: each `&` begins the name of a byte, and the text comes back.
pub fn escaped_has_no_markup()
    ensures no_markup { (text : List ℕ) → AllByRecursion IsNoMarkup (escaped text) }
    ensures reads_back { (text : List ℕ) → unescaped (escaped text) ≡ text }
{}
