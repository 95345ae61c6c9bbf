//! What the carries of products say. Each law is what a function with an empty body ensures.

ghost use Rattle.gadget_products.specs.Laws.{CarriesAreLookedUp, CarriesMakeOneNumber, OneNumberHasCarries, ProductsHaveCarries, DivisionsHaveCarries};

/// Law: what is looked up of carries stands in the range table exactly where they are below 2^11.
pub fn carries_are_looked_up()
    ensures { CarriesAreLookedUp }
{}

/// Law: carries that are looked up below 2^11 make sums of products and limbs one number.
pub fn carries_make_one_number()
    ensures { CarriesMakeOneNumber }
{}

/// Law: where sums of products and limbs are one number, the carries are below 2^11.
pub fn one_number_has_carries()
    ensures { OneNumberHasCarries }
{}

/// Law: the carries of a product are looked up exactly where its two words are the product's, modulo 2^64.
pub fn products_have_carries()
    ensures { ProductsHaveCarries }
{}

/// Law: the carries of a division are looked up, and its top is 0, exactly where b is c * q + r.
pub fn divisions_have_carries()
    ensures { DivisionsHaveCarries }
{}
