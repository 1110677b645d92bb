// Laws of the forms on variants, polymorphs and rows: each does what the statement table says of it, for sources and
// targets at any paths.

ghost use Rattle.herm_forms.specs.Modules.{Module};
ghost use Rattle.herm_forms.specs.laws.ComponentLaws.{ComponentsAreKnown, ContentsAreHeld, ContentsMove, RowsAreFound, RowsAreInserted, RowsAreVisited};

/// `dissolve` and `unwrap` into any place keep values sound, also where `unwrap` finds another type.
pub fn contents_move_soundly()
    ensures contents { (c : Module) → ContentsMove c }
{}

/// `reveal` and `case` of a variant that is there keep values sound, with the component that they find.
pub fn components_are_known()
    ensures components { (c : Module) → ComponentsAreKnown c }
{}

/// `unite` and `wrap` keep values sound: what the source holds beyond a full value is dropped, and the rest is the content.
pub fn contents_are_held()
    ensures contents { (c : Module) → ContentsAreHeld c }
{}

/// `get` and `remove` keep values sound, of tables anywhere and into any place, also where no row has the key.
pub fn rows_are_found_soundly()
    ensures rows { (c : Module) → RowsAreFound c }
{}

/// `insert` keeps values sound, into tables anywhere: keys stay different, and the row's key is that which was tested.
pub fn rows_are_inserted_soundly()
    ensures rows { (c : Module) → RowsAreInserted c }
{}

/// A test of `for` keeps values sound, of tables anywhere and into any place, and the rows that are left to visit full.
pub fn rows_are_visited_soundly()
    ensures rows { (c : Module) → RowsAreVisited c }
{}
