//! What a line asks.

use case_lines::word_of;

/// What judges a text: its lines one by one, or the rules of a whole schedule.
#[derive(Clone, Copy)]
pub(crate) enum Judge {
    Lines,
    Rules,
}

#[derive(Clone, Copy)]
pub(crate) enum Order<'a> {
    /// Another text.
    Text,
    /// The text's next line.
    Line(&'a str),
    Size,
    Items,
    Slots,
    /// What is at fault, where a line may be another.
    Fault(Judge, &'a str),
}

/// What the line asks, if it is an order.
pub(crate) fn order_of(line: &str) -> Option<Order<'_>> {
    match word_of(line) {
        ("text", _) => Some(Order::Text),
        ("|", rest) => Some(Order::Line(rest)),
        ("size", "") => Some(Order::Size),
        ("items", "") => Some(Order::Items),
        ("slots", "") => Some(Order::Slots),
        ("read", rest) => Some(Order::Fault(Judge::Lines, rest)),
        ("check", rest) => Some(Order::Fault(Judge::Rules, rest)),
        _ => None,
    }
}
