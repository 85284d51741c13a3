// The kit of the repository: the choice by a test, and the laws of lists and of lent room.

#![tactic(auto)]
