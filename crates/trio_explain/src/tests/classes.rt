//! What is said of a name of each class, and of each relation, where it cannot stand.
use super::specs_are_refused;

/// Specifications with a name of each class, or with each relation, where it cannot stand.
const CLASSES_AND_RELATIONS: [(&str, &str); 9] = [
    (
        "time 1; domain d = 0..1; item d : bool;",
        "1:31: `d` is declared twice; it is the domain of line 1, column 16",
    ),
    (
        "time 1; goal G : true; axiom G : true;",
        "1:30: `G` is declared twice; it is the goal of line 1, column 14",
    ),
    (
        "time 1; axiom A : true; axiom B : A;",
        "1:35: `A` is an axiom, and has no value",
    ),
    (
        "time 1; goal G : true; axiom B : G;",
        "1:34: `G` is a goal, and has no value",
    ),
    (
        "time 1; domain m = {red, green}; item p : red;",
        "1:43: `red` is a word of a domain, and a domain is to stand here",
    ),
    (
        "time 1; axiom A : true > true;",
        "1:24: `>` has `bool` to its left and `bool` to its right; both sides are to be numbers",
    ),
    (
        "time 1; axiom A : true >= 1;",
        "1:24: `>=` has `bool` to its left and a number to its right; both sides are to be numbers",
    ),
    (
        "time 1; axiom A : 1 <= true;",
        "1:21: `<=` has a number to its left and `bool` to its right; both sides are to be numbers",
    ),
    (
        "time 1; axiom A : 1 != true;",
        "1:21: `!=` has a number to its left and `bool` to its right; both sides are to be of one kind",
    ),
];

#[test]
fn faults_of_classes_and_relations(rt: HostRuntime) {
    specs_are_refused(&rt, &CLASSES_AND_RELATIONS);
}
