// planlook: reads an image and pairs of plans from standard input, and prints what the library says of them.
#![tactic(auto)]

fn main() {
    look::run();
}
