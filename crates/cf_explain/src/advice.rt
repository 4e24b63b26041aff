//! What to do about classes of the Java library that are not there.

// The beginnings of names, with what to do about them. The first that fits counts.
static ADVICE: [(&[u8], &str); 22] = [
    (
        b"java/lang/String",
        "The profile has no texts: use an int or an int[] in its place, and leave messages out.",
    ),
    (
        b"java/lang/invoke/",
        "A lambda or a method reference: write a class that implements your own interface.",
    ),
    (
        b"java/util/function/",
        "A lambda's interface: declare your own interface, and a class that implements it.",
    ),
    (
        b"java/util/Objects",
        "javac adds this call for `outer.new Inner()` and `outer::method`: let a method of the outer class make the inner object.",
    ),
    (
        b"java/util/",
        "There are no collections: write a class over int[] and fields of your own classes.",
    ),
    (
        b"java/lang/Integer",
        "Numbers are not boxed: use int, also where a generic class holds one.",
    ),
    (b"java/lang/Boolean", "Values are not boxed: use boolean."),
    (b"java/lang/Number", "Numbers are not boxed: use int."),
    (
        b"java/lang/Math",
        "Write the method yourself: there is no library but the built-in classes.",
    ),
    (
        b"java/lang/System",
        "A method neither prints nor asks the time: return what is to be told.",
    ),
    (
        b"java/lang/Enum",
        "An enum: use `static final int` constants in its place.",
    ),
    (
        b"java/lang/Runnable",
        "Declare an interface of your own in its place.",
    ),
    (
        b"java/lang/Comparable",
        "Declare an interface of your own in its place.",
    ),
    (
        b"java/lang/Iterable",
        "Declare an interface of your own in its place, and loop over ints or an int[].",
    ),
    (b"java/lang/Cloneable", "Copy an int[] by a loop."),
    (
        b"java/lang/AssertionError",
        "An `assert`: leave it out, or throw java.lang.Error.",
    ),
    (
        b"java/lang/Illegal",
        "Of throwables the set has those that running code can meet: throw java.lang.RuntimeException, or a class of your own below it.",
    ),
    (
        b"java/lang/Unsupported",
        "Of throwables the set has those that running code can meet: throw java.lang.RuntimeException, or a class of your own below it.",
    ),
    (
        b"java/rmi/server/",
        "A remote class extends Object and implements its remote interface: leave UnicastRemoteObject out.",
    ),
    (
        b"java/rmi/",
        "A space stands for the registry: bind names by `--bind`, and look them up by `call` or `lookup`.",
    ),
    (
        b"java/io/",
        "A method has no files and no streams: return what is to be told.",
    ),
    (
        b"java/",
        "Of the Java library the set has only the built-in classes: the throwables that running code can meet, java.lang.Object and java.rmi.Remote.",
    ),
];

/// Returns what to do about a class of this name that is not in the set.
pub fn advice_on(class: &[u8]) -> &'static str {
    for (front, advice) in &ADVICE {
        if class.starts_with(front) {
            return advice;
        }
    }
    "Add its class file to the folder: the files in it and below it are the whole set."
}
