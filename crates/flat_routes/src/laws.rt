//! A law of the definitions: what is found in an image of a table is what is found in the table.
ghost use Rattle.std.specs.Prelude.{◌≡◌, ℕ, List, Option, option_map, map as each};
ghost use Rattle.radix_keys.specs.Networks.{Net};
ghost use Rattle.frozen_routes.specs.Routes.{AreRowsInOrder, IsLongestRow};
ghost use Rattle.flat_routes.specs.Images.{numbered_row};

/// Of one address the table and the image with the same rows return the same row, or both none.
pub fn images_answer_as_tables<A>()
    ensures { (w : ℕ) (number : A → ℕ) (rows : List (Net A × ℕ)) (n : ℕ)
        (found : Option (Net A × ℕ)) (other : Option (Net ℕ × ℕ)) → AreRowsInOrder w number rows
        → IsLongestRow w number rows n found
        → IsLongestRow w (λ m. m) (each (numbered_row number) rows) n other
        → other ≡ option_map (numbered_row number) found }
{}
