// Theorems: what is proved stands in each function's contract; the functions do nothing.
ghost use Rattle.book.specs.Theorems.{CornersBound, CornersSuffice, CornerFormula, OneMargin, SalesRaise, PurchasesLower, SoldBounds, TradesKeep, ChangesKeep, TradesAddUp, ZeroNeverRaises, CircularMinimum, CircularRequired, CircularReplies, LimiterLosses};
ghost use Rattle.book.specs.RunLaws.{RunsRight, NetsAddUp};
ghost use Rattle.kinds.specs.ListedOptions.{listed};
ghost use Rattle.kinds.specs.FlexibleOptions.{flexible};
ghost use Rattle.book.specs.Examples.{ExamplesHold};

use kinds::Kind;

// What holds of every kind that keeps the six rules.
pub fn margin_laws<K: Kind>()
    // what bounds the loss at price 0 and at the corners bounds it at every whole price
    ensures bound { CornersBound K.Kind.means }
    // the best of price 0 and the corners is the lowest of all whole prices at which the loss is greatest
    ensures corners { CornersSuffice K.Kind.means }
    // the greatest of zero and of the losses there, rounded up, is the least number that covers every price
    ensures formula { CornerFormula K.Kind.means }
    // there is one answer to the margin question
    ensures one { OneMargin }
    // no sale lowers it, no purchase raises it, and it never passes what the contracts held sold can lose
    ensures sales { SalesRaise K.Kind.means }
    ensures purchases { PurchasesLower K.Kind.means }
    ensures sold { SoldBounds K.Kind.means }
    // accepted trades and market changes keep every held contract fitting, and none held twice
    ensures trades { TradesKeep K.Kind.means }
    ensures changes { ChangesKeep K.Kind.means }
    // a trade adds its quantity to the net quantity in its contract, and to no other
    ensures adds { TradesAddUp K.Kind.means }
    // every run of a kept book is right: refusals, margins at every whole price, sales, purchases and the bound by what is held sold
    ensures runs { RunsRight K.Kind.means }
    // and each contract's net quantity is what it was at the start plus the sum of the accepted trades in it
    ensures nets { NetsAddUp K.Kind.means }
{}

// The public formulas: the circular's steps for listed books, the limiter's settlement for flexible ones.
pub fn formula_laws()
    // the circular's figures, in exact units and rounded up, are the least that cover every whole price and every scenario
    ensures minimum { CircularMinimum }
    ensures required { CircularRequired }
    // and so they are the replies of a listed book
    ensures replies { CircularReplies }
    // a flexible book's loss is that of the settlement formula
    ensures limiter { LimiterLosses }
    // price 0, which the circular leaves out, never raises the figure
    ensures listed { ZeroNeverRaises listed }
    ensures flexible { ZeroNeverRaises flexible }
{}

// The worked examples.
pub fn examples_hold()
    ensures { ExamplesHold }
{}
