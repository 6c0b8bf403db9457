//! The layer that a refusal comes from.
ghost use Rattle.std.specs.Prelude.{Some};
ghost use Rattle.faults.specs.Layers.{layer_name};

use std::fmt;

/// Where a refusal arises: in a step book, in a sale, or in a session file.
#[derive(Clone, Copy, PartialEq, Eq, Debug)]
pub enum Layer {
    Book,
    Sale,
    File,
}

impl fmt::Display for Layer {
    ghost output = { λ x. Some (layer_name x) };

    fn fmt<W: fmt::Write>(&self, f: &mut fmt::Formatter<W>) -> fmt::Result {
        let name = match self {
            Layer::Book => "book",
            Layer::Sale => "sale",
            Layer::File => "file",
        };
        f.write_str(name)
    }
}
