//! Laws.

ghost use Rattle.std.specs.Prelude.{◌≡◌, ◌<◌, ◌^◌, ℕ, List, [], length};
ghost use Rattle.krb_schema.specs.declared.item.Fault.{Fault};
ghost use Rattle.krb_schema.specs.Faults.{IsFault, IsWholeFault};
ghost use Rattle.krb_schema.specs.declared.item.Item.{Item};
ghost use Rattle.krb_schema.specs.declared.shape.Name.{Name};
ghost use Rattle.krb_schema.specs.declared.shape.Schema.{Schema};
ghost use Rattle.krb_schema.specs.Laws.{contents_at};
ghost use Rattle.krb_schema.specs.Shapes.{IsElement};
ghost use Rattle.krb_schema.specs.Walks.{Walked};

/// Items and what stands at the places of their leaves determine the octets, whatever the schemas, the rows and the names: nothing is left
/// out.
pub fn items_determine_octets()
    ensures { (s t : Schema) (is are : ℕ) (name called : Name) (octets other : List ℕ) (items : List Item)
        → Walked (IsElement 64 s is name []) octets 0 0 [] items → Walked (IsElement 64 t are called []) other 0 0 [] items
        → contents_at octets items ≡ contents_at other items → octets ≡ other }
{}

/// Octets have one list of items, whatever the schema, the row and the name.
pub fn one_list_of_items()
    ensures { (schema : Schema) (is : ℕ) (name : Name) (octets : List ℕ) (items other : List Item)
        → Walked (IsElement 64 schema is name []) octets 0 0 [] items → Walked (IsElement 64 schema is name []) octets 0 0 [] other → items ≡ other }
{}

/// Octets have one first fault, and it is in one place, whatever the schema and the row.
pub fn one_first_fault()
    ensures { (schema : Schema) (is : ℕ) (name : Name) (octets : List ℕ) (fault other : Fault) → length octets < 2 ^ 64
        → IsWholeFault (IsElement 64 schema is name []) (IsFault 64 schema is name []) 0 octets fault
        → IsWholeFault (IsElement 64 schema is name []) (IsFault 64 schema is name []) 0 octets other → fault ≡ other }
{}
