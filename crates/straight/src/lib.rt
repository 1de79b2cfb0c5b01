// Lines parallel to an axis: none meets refusal 7, and their cells are those of document 02's sentence. Laws of the walk, of its entry and of a build;
// there is no code here.
#![tactic(auto)]
