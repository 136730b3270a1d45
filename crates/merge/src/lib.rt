// What the methods of a join are put together from: the reading places of the lists, the keys of their bounds, one interval more.
// An index and the entries of a request stay two parameters, and so do the cells and whether they are written: as structs they are no plainer, since most
// functions read one entry of the index, which is no request, and a lent cell in a struct would have to be lent again for each call.
#![tactic(auto)]

pub mod keys;
pub mod places;
pub mod put;
