// The bounds in code are those of the definitions: a constant changed in one of the two alone breaks this.
ghost use Rattle.std.specs.Prelude.{[], ◌∷◌, ◌≡◌};
ghost use Rattle.rules.specs.Bounds.{columns_max, rows_max, rules_max, nodes_max, width_max, mux_max, cell_max};

fn most() -> [usize; 7]
    ensures { result ≡ columns_max ∷ rows_max ∷ rules_max ∷ nodes_max ∷ width_max ∷ mux_max ∷ cell_max ∷ [] }
{
    [
        crate::COLUMNS_MAX,
        crate::ROWS_MAX,
        crate::RULES_MAX,
        crate::NODES_MAX,
        crate::WIDTH_MAX,
        crate::MUX_MAX,
        usize::from(crate::CELL_MAX),
    ]
}
