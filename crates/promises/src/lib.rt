// Every promise about images, tables, plans and prime forms, with its proved term: the page to read first. There is no code in this crate.
#![tactic(auto)]
