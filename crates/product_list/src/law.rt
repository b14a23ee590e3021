//! Laws of product lists, over definitions alone.
//!
//! The functions do nothing: each carries a law in its contract.

ghost use Rattle.product_list.specs.Laws.{DeclaredMore, ListOrFault, PrintedIsRead, ReadIsListable};

/// Each text is the product list of a circuit, or has a fault at a line.
pub fn law_answer()
    ensures { ListOrFault }
{}

/// The circuit of a product list has a product list itself.
pub fn law_listable()
    ensures { ReadIsListable }
{}

/// The product list that is printed of a circuit is read as its static circuit, where it isn't too
/// long to be read.
pub fn law_read_back()
    ensures { PrintedIsRead }
{}

/// Registers that are declared one after another stay so with one more.
pub fn law_declared()
    ensures { DeclaredMore }
{}
