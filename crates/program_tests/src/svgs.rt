//! A test of a whole text, with labels that are escaped.

use std::alloc::{AllocError, Global};
use svg_text::{Anchor, Drawing, Paint, Shape, Spot, svg_of};

/// The text of a picture with one label, and a strip of which a part is shown.
const LABEL: &str =
    "<svg xmlns=\"http://www.w3.org/2000/svg\" viewBox=\"0 0 30 20\" width=\"30\" height=\"20\" role=\"img\" \
    aria-labelledby=\"title description\" font-family=\"monospace\" font-size=\"13\">
<title id=\"title\">a &amp; b</title>
<desc id=\"description\">it&apos;s</desc>
<rect width=\"30\" height=\"20\" fill=\"#ffffff\"/>
<defs>
<g id=\"strip\">
<circle cx=\"50\" cy=\"6\" r=\"6\" fill=\"#000000\" stroke=\"#ffffff\"/>
</g>
</defs>
<svg x=\"2\" y=\"5\" width=\"20\" height=\"12\" viewBox=\"40 0 20 12\"><use href=\"#strip\"/></svg>
<text x=\"3\" y=\"9\" text-anchor=\"middle\" fill=\"#000000\">&lt;c &quot;d&quot;&gt;</text>
</svg>
";

/// A text of its own with these bytes.
fn copied(alloc: Global, bytes: &[u8]) -> Result<Vec<u8>, AllocError> {
    let mut copy = Vec::new(alloc);
    copy.extend_from_slice(bytes)?;
    Ok(copy)
}

/// A strip with one dot.
fn strip(alloc: Global) -> Result<Vec<Shape>, AllocError> {
    let mut shapes = Vec::new(alloc);
    shapes.push(Shape::Dot(Spot { x: 50, y: 6 }))?;
    Ok(shapes)
}

/// A view and a label.
fn view_and_label(alloc: Global) -> Result<Vec<Shape>, AllocError> {
    let text = copied(alloc, b"<c \"d\">")?;
    let mut shapes = Vec::new(alloc);
    shapes.push(Shape::View(Spot { x: 2, y: 5 }, 20, 12, 40))?;
    shapes.push(Shape::Text(Spot { x: 3, y: 9 }, Anchor::Middle, Paint::Ink, text))?;
    Ok(shapes)
}

/// A picture with one label, whose texts have each of the five bytes that are escaped.
fn labelled(alloc: Global) -> Result<Vec<u8>, AllocError> {
    let drawing = Drawing {
        width: 30,
        height: 20,
        title: copied(alloc, b"a & b")?,
        description: copied(alloc, b"it's")?,
        strip: strip(alloc)?,
        shapes: view_and_label(alloc)?,
    };
    svg_of(alloc, &drawing)
}

#[test]
fn labels_are_escaped(rt: HostRuntime) {
    match labelled(rt.alloc()) {
        Ok(svg) => assert!(rt; svg.as_slice() == LABEL.as_bytes()),
        Err(_) => assert!(rt; false),
    }
}
