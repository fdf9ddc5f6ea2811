//! Orders of local steps as text: the lines that are written of them are read as they are.

ghost use Rattle.std.specs.Prelude.{ℕ, ◌<◌, ◌≤◌, ◌≡◌, ◌^◌, ◌++◌, List, None, Ok, length, map};
ghost use Rattle.number_lists.specs.Numbers.{from_to};
ghost use Rattle.ptl_types.specs.declared.steps.LocalStep.{LocalStep};
ghost use Rattle.coll_text.specs.Text.{lines};
ghost use Rattle.coll_lang.specs.Language.{read};
ghost use Rattle.coll_lang.specs.Program.{Program};
ghost use Rattle.run_text.specs.Orders.{order_text};
ghost use Rattle.order_lines.specs.Check.{read_check};
ghost use Rattle.order_lines.specs.Orders.{read_orders};
ghost use Rattle.order_lines.specs.declared.checking.TheConstants.{LONGEST_CHECK};
ghost use Rattle.run_text.specs.read_orders.Named.{AreNamed};

/// The order lines that are written of lists are read as these lists, whatever the number of the first line is. In each list a
/// source is a rank, and a number is below 2^32.
pub fn orders_are_read_back()
    ensures { (ranks k : ℕ) (steps : ℕ → List LocalStep) → ranks ≤ 2 ^ 32 →
        ((r : ℕ) → r < ranks → AreNamed ranks (steps r)) →
        read_orders ranks ranks 0 k (lines (order_text ranks steps)) ≡ Ok (map steps (from_to 0 ranks)) }
{}

/// An accepted text that chooses nothing, and after it the order lines that are written of lists, one for each of its ranks, are
/// read as the description and these lists: the first line `end` of such a text is its last.
pub fn checks_are_read_back()
    ensures { (bytes : List ℕ) (d : Program) (steps : ℕ → List LocalStep) → read bytes ≡ Ok d → d.choices ≡ None →
        length (bytes ++ order_text d.shape.ranks steps) ≤ LONGEST_CHECK →
        ((r : ℕ) → r < d.shape.ranks → AreNamed d.shape.ranks (steps r)) →
        read_check (bytes ++ order_text d.shape.ranks steps) ≡ Ok (d, map steps (from_to 0 d.shape.ranks)) }
{}
