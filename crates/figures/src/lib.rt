// The definitions of document 01 and of Figures 2 and 3 stand in specs/, with the cases that hold each of their lines.
// There is no code here: the crates above are proved to do what these definitions say.
#![tactic(auto)]
