//! Uses that were asked for.

ghost use Rattle.std.specs.Prelude.{◌≡◌};

use paging_model::spaces::TableUse;
use std::marker::Model;

/// Uses of tables: of higher levels first, and of one level by ascending prefixes.
#[derive(Debug, Drop)]
pub struct Uses {
    items: Vec<TableUse>,
}

impl Model for Uses {
    ghost use Rattle.std.specs.Prelude.{List};
    ghost use Rattle.paging_model.specs.declared.spaces.TableUse.{TableUse};

    ghost Value = { List TableUse };

    ghost view = { λ uses. uses.items.items };
}

impl Uses {
    /// Takes ownership of the uses.
    pub fn from_vec(items: Vec<TableUse>) -> Uses
        ensures { result ≡ items.items }
    {
        Uses { items }
    }

    /// Borrows the uses.
    pub fn as_slice(&self) -> &[TableUse]
        ensures { result.now ≡ self.now }
    {
        self.items.as_slice()
    }
}
