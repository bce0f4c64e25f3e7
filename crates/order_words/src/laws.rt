//! What words are as an order. The function runs nothing; its contract is the laws.

ghost use Rattle.order_words.specs.Words.{TextsAreTaken, NumbersAreTaken, PlainWordsAreTaken, AreUsage};

/// Which words are which order, and which are none: behind `=` an option takes any text, and behind `--` a position does; numbers
/// are judged by their digits. Of `analyse`: its option stands before FILE or behind it; and what has the option twice,
/// shortened, without its value or not at all, lacks FILE or has a word too many, is no order.
pub fn words_are_orders()
    ensures texts { TextsAreTaken }
    ensures numbers { NumbersAreTaken }
    ensures plain { PlainWordsAreTaken }
    ensures others { AreUsage }
{}
