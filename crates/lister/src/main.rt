// Lists the program that standard input holds, in the first edition. A program takes no arguments, so each edition has one.
#![tactic(auto)]

use listing::out::list_input;
use program::Edition;

fn main() {
    list_input(Edition::First);
}
