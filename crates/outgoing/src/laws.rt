// What holds of the names that a book has: each function's contract is a theorem.
ghost use Rattle.outgoing.specs.Theorems.{NameListTells, OneNameList, NamesReadBack};

// The list has the names of the changes and no others, and rises; changes within the limits are told by it whole.
pub fn name_list_tells()
    ensures { NameListTells }
{}

// There is one such list.
pub fn one_name_list()
    ensures { OneNameList }
{}

// What names are written as is read as these names.
pub fn names_read_back()
    ensures { NamesReadBack }
{}
