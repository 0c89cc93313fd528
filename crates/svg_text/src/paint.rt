//! How shapes are painted.

use std::fmt;

/// A colour of Okabe and Ito, which the colour-blind tell apart.
#[derive(Clone, Copy)]
pub enum Colour {
    /// `#e69f00`.
    Orange,
    /// `#56b4e9`.
    SkyBlue,
    /// `#009e73`.
    Green,
    /// `#f0e442`.
    Yellow,
    /// `#0072b2`.
    Blue,
    /// `#d55e00`.
    Vermilion,
    /// `#cc79a7`.
    Purple,
}

impl fmt::Display for Colour {
    ghost use Rattle.std.specs.Prelude.{Some};
    ghost use Rattle.svg_text.specs.Svg.{code_of};

    ghost output = { λ colour. Some (code_of colour) };

    fn fmt<W: fmt::Write>(&self, f: &mut fmt::Formatter<W>) -> fmt::Result {
        match self {
            Colour::Orange => write!(f, "#e69f00"),
            Colour::SkyBlue => write!(f, "#56b4e9"),
            Colour::Green => write!(f, "#009e73"),
            Colour::Yellow => write!(f, "#f0e442"),
            Colour::Blue => write!(f, "#0072b2"),
            Colour::Vermilion => write!(f, "#d55e00"),
            Colour::Purple => write!(f, "#cc79a7"),
        }
    }
}

/// How the letter upon a mark is written; it lets the pointer through.
const LETTER: &str = " font-size=\"16\" font-weight=\"bold\" pointer-events=\"none\"";

/// How a shape is painted.
#[derive(Clone, Copy)]
pub enum Paint {
    /// White, without an edge.
    Paper,
    /// White, with a dark edge.
    Frame,
    /// Black.
    Ink,
    /// A title.
    Title,
    /// A letter upon a pale mark, which lets the pointer through to it.
    DarkLetter,
    /// A letter upon a dark mark, which does so too.
    LightLetter,
    /// A pale line.
    Faint,
    /// A dark line.
    Edge,
    /// A broken line.
    Broken,
    /// A thick line, as that of an arrow.
    Thick,
    /// A thick line in vermilion.
    Cross,
    /// A mark in a colour, with a dark edge.
    Mark(Colour),
    /// The same, of which most of the colour is left out.
    Pale(Colour),
}

impl fmt::Display for Paint {
    ghost use Rattle.std.specs.Prelude.{Some};
    ghost use Rattle.svg_text.specs.Svg.{paint_text};

    ghost output = { λ paint. Some (paint_text paint) };

    #[tactic(auto, unfolding(crate::specs::Svg::paint_text))]
    fn fmt<W: fmt::Write>(&self, f: &mut fmt::Formatter<W>) -> fmt::Result {
        match self {
            Paint::Paper => write!(f, " fill=\"#ffffff\""),
            Paint::Frame => write!(f, " fill=\"#ffffff\" stroke=\"#333333\""),
            Paint::Ink => write!(f, " fill=\"#000000\""),
            Paint::Title => write!(f, " fill=\"#000000\" font-size=\"16\" font-weight=\"bold\""),
            Paint::DarkLetter => write!(f, " fill=\"#000000\"{LETTER}"),
            Paint::LightLetter => write!(f, " fill=\"#ffffff\"{LETTER}"),
            Paint::Faint => write!(f, " stroke=\"#bbbbbb\""),
            Paint::Edge => write!(f, " stroke=\"#333333\""),
            Paint::Broken => write!(f, " stroke=\"#333333\" stroke-dasharray=\"6 4\""),
            Paint::Thick => write!(f, " stroke=\"#000000\" stroke-width=\"2\""),
            Paint::Cross => write!(f, " stroke=\"#d55e00\" stroke-width=\"3\""),
            Paint::Mark(colour) => write!(f, " fill=\"{colour}\" stroke=\"#333333\""),
            Paint::Pale(colour) => {
                write!(
                    f,
                    " fill=\"{colour}\" stroke=\"#333333\" fill-opacity=\"0.25\""
                )
            }
        }
    }
}
