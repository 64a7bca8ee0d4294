// What a seat knows, which no code reads.
use std::marker::Model;

/// What a seat knows: plain data in contracts alone. No value of this type is made, so which one it would stand for is of no meaning.
pub struct View;

impl Model for View {
    ghost use Rattle.far_table.specs.View.{View as any_view, no_view};

    ghost Value = { any_view };

    ghost view = { λ _. no_view };
}
