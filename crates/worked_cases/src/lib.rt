// 01's worked cases, on the definitions alone: specs/ has the table, proofs/ the one claim about it. There is no code here;
// programs run the same cases through the calls.
#![tactic(auto)]
