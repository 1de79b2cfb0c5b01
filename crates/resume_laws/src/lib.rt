// What joins `resume` to `visit`, as laws of their definitions: on tables that fit, from the cursor of a bookmark, `next` is a batch from that bookmark. The
// laws are in proofs/; there is no code here.
#![tactic(auto)]
